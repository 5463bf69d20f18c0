// What is proved of the definitions themselves.
ghost use Rattle.extents.specs.Map.{OneWriting};
ghost use Rattle.extents.specs.Examples.{Examples};

use crate::target::Target;

// Each map has one writing: two tables that give every block the same target are equal.
pub fn one_writing<T: Target>()
    ensures { OneWriting T.Target.advanced T.Target.same }
{}

// The worked examples come out of the definitions.
pub fn examples_hold()
    ensures { Examples }
{}
