// The names that no variable is given.
ghost use Rattle.std.specs.Prelude.{◌↔◌, IsTrue};
ghost use Rattle.luf_name.specs.Barred.{IsBarred};

/// A keyword of Lua 5.4, `self` or `_ENV`.
#[tactic(auto, using(crate::proofs::Words::function_is_barred))]
pub fn is_barred(name: &[u8]) -> bool
    ensures { IsTrue result ↔ IsBarred name.now }
{
    match name {
        b"and"
        | b"break"
        | b"do"
        | b"else"
        | b"elseif"
        | b"end"
        | b"false"
        | b"for"
        | b"function"
        | b"goto"
        | b"if"
        | b"in"
        | b"local"
        | b"nil"
        | b"not"
        | b"or"
        | b"repeat"
        | b"return"
        | b"then"
        | b"true"
        | b"until"
        | b"while"
        | b"self"
        | b"_ENV" => true,
        _ => false,
    }
}
