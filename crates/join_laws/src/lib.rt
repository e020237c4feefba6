//! The law of the files of slabs. A call says its law and does nothing else.
#![tactic(auto)]

ghost use Rattle.join_laws.specs.Joined.{GivesFiles, JoinedIsWhole};

/// The files that `isoslab` writes of the slabs of a volume, one behind the other, are the text of the mesh of the whole, in
/// the padding that it has, as PLY and as OBJ: for every cut of the volume into slabs of which each shares its two uppermost
/// slices with the next one, and for every file of each slab's slices. What the law calls the files of a slab are those that
/// the program gives.
pub fn joined_is_whole()
    ensures whole { JoinedIsWhole }
    ensures files { GivesFiles }
{}
