// Laws of the formatted text.
ghost use Rattle.std.specs.Prelude.{◌≡◌, ◌≤◌, ℕ, List, None};
ghost use Rattle.luf_conf.specs.declared.settings.Options.{Options};
ghost use Rattle.luf_tree.specs.Level.{depth_of, level_limit};
ghost use Rattle.luf_resolved.specs.Source.{scope_fault_of};
ghost use Rattle.luf_style.specs.Styled.{IsFormatted, choices_of};
ghost use Rattle.luf_kept.specs.Kept.{IsKept};

/// The formatted text of a source that is nested at most 200 levels deep and has no scope fault is the same program, with the same comments.
pub fn formatted_is_kept()
    ensures { (o : Options) (source text : List ℕ) (f : IsFormatted (choices_of o) source text) → depth_of f.chunk ≤ level_limit → scope_fault_of source f.pieces f.chunk ≡ None → IsKept o source text }
{}
