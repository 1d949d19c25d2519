// Laws of options, each on an empty function.
ghost use Rattle.std.specs.Prelude.{◌≡◌, ℕ, List};
ghost use Rattle.toml.specs.Data.{Members};
ghost use Rattle.luf_conf.specs.Answers.{AreOptions, IsRefused, TellsOptions};
ghost use Rattle.luf_conf.specs.Settings.{AreInRange};
ghost use Rattle.luf_conf.specs.declared.error.ConfErr.{ConfErr};
ghost use Rattle.luf_conf.specs.declared.settings.Options.{Options};

/// A table, and so a text, tells the options of one layout at most.
pub fn one_options()
    ensures table { (table : Members) (o p : Options) → AreOptions table o → AreOptions table p → o ≡ p }
    ensures text { (text : List ℕ) (o p : Options) → TellsOptions text o → TellsOptions text p → o ≡ p }
{}

/// A text that tells options is not refused.
pub fn options_not_refused()
    ensures { (text : List ℕ) (o : Options) (e : ConfErr) → TellsOptions text o → IsRefused text e → ⊥ }
{}

/// A text is refused for one cause at most.
pub fn one_refusal()
    ensures { (text : List ℕ) (e f : ConfErr) → IsRefused text e → IsRefused text f → e ≡ f }
{}

/// The numbers of options that a table tells are within their limits.
pub fn options_in_range()
    ensures { (table : Members) (o : Options) → AreOptions table o → AreInRange o }
{}
