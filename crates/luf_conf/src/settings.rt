// The options, and what they are after a key with its value.
ghost use Rattle.std.specs.Prelude.{◌≡◌, ◌≢◌, IfSome, MatchOption};
ghost use Rattle.toml.specs.Data.{Data, no_members};
ghost use Rattle.toml.specs.View.{view};
ghost use Rattle.luf_conf.specs.Answers.{AreOptions};
ghost use Rattle.luf_conf.specs.Settings.{Sets};
ghost use Rattle.luf_conf.specs.declared.keys.Key.{Key as Keys};
ghost use Rattle.luf_conf.specs.declared.settings.Options.{Options as Settings};

use crate::keys::Key;
use crate::values::{calls_of, number_to, quotes_of, tabs_of, word_of};
use luf_quote::{CallStyle, QuoteStyle};
use toml::Value;

/// How a formatted text is laid out.
#[derive(Clone, Copy, Debug, PartialEq, Eq)]
pub struct Options {
    /// The columns of a line, from 1 to 10,000.
    pub column_width: u32,
    /// Whether a level of indentation is one tab.
    pub tabs: bool,
    /// The columns of a level, from 1 to 16: so many spaces where it is no tab.
    pub indent_width: u32,
    /// The quotes of short strings.
    pub quotes: QuoteStyle,
    /// The parentheses round a lone argument.
    pub calls: CallStyle,
}

/// The most columns that a line may have.
const MOST_COLUMNS: u32 = 10_000;

/// The most columns that a level may have.
const MOST_INDENT: u32 = 16;

impl Options {
    /// The options where no key is given.
    pub fn usual() -> Options
        ensures { AreOptions no_members result }
    {
        Options {
            column_width: 120,
            tabs: true,
            indent_width: 4,
            quotes: QuoteStyle::AutoPreferDouble,
            calls: CallStyle::Always,
        }
    }

    /// These options with the value of a key, or none where the key may not have it.
    pub(crate) fn with(self, key: Key, value: &Value) -> Option<Options>
        ensures sets { MatchOption result ((o : Settings) → Sets key (view value.now) o → ⊥) (Sets key (view value.now)) }
        ensures keeps { IfSome result (λ o. (other : Keys) → other ≢ key → (d : Data) → Sets other d self → Sets other d o) }
    {
        match key {
            Key::ColumnWidth => Some(Options {
                column_width: number_to(value, MOST_COLUMNS)?,
                ..self
            }),
            Key::IndentType => Some(Options {
                tabs: tabs_of(word_of(value)?)?,
                ..self
            }),
            Key::IndentWidth => Some(Options {
                indent_width: number_to(value, MOST_INDENT)?,
                ..self
            }),
            Key::QuoteStyle => Some(Options {
                quotes: quotes_of(word_of(value)?)?,
                ..self
            }),
            Key::CallParentheses => Some(Options {
                calls: calls_of(word_of(value)?)?,
                ..self
            }),
            Key::LineEndings => {
                if word_of(value)? == b"Unix".as_slice() {
                    Some(self)
                } else {
                    None
                }
            }
            Key::CollapseSimpleStatement => {
                if word_of(value)? == b"Never".as_slice() {
                    Some(self)
                } else {
                    None
                }
            }
        }
    }
}
