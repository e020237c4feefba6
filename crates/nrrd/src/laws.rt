//! What the clauses of the calls mean together: a volume in any of the three forms is read again as the same volume, and
//! the bytes behind it are counted.
ghost use Rattle.std.specs.Prelude.{◌≡◌, ◌+◌, ◌++◌, List, ℕ, length, Ok};
ghost use Rattle.iso_base.specs.Volume.{Voxels, IsVoxels};
ghost use Rattle.nrrd_read.specs.Nrrd.{nrrd_of};
ghost use Rattle.nrrd.specs.Writing.{hex_save, save_text, text_save};

/// Raw samples.
pub fn save_is_read()
    ensures { (v : Voxels) (rest : List ℕ) → IsVoxels v → nrrd_of (save_text v ++ rest) ≡ Ok (v, length rest) }
{}

/// Lines of numbers. The line feed of the last line is counted too.
pub fn text_is_read()
    ensures { (v : Voxels) (rest : List ℕ) → IsVoxels v → nrrd_of (text_save v ++ rest) ≡ Ok (v, length rest + 1) }
{}

/// Lines of hex digits. The line feed of the last line is counted too.
pub fn hex_is_read()
    ensures { (v : Voxels) (rest : List ℕ) → IsVoxels v → nrrd_of (hex_save v ++ rest) ≡ Ok (v, length rest + 1) }
{}
