// Laws of minified text.
ghost use Rattle.luf_min.specs.MinifiedLaws.{MinifiedExists, MinifiedIsSame, OneMinified};

/// A source without scope faults has a minified text.
pub fn minified_exists()
    ensures { MinifiedExists }
{}

/// With one tree a source has one minified text.
pub fn one_minified()
    ensures { OneMinified }
{}

/// The minified text of a source without scope faults is the same program.
pub fn minified_is_same()
    ensures { MinifiedIsSame }
{}
