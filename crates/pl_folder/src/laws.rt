//! Laws of what a crash may leave.
ghost use Rattle.std.specs.Prelude.{◌≡◌};
ghost use Rattle.pl_folder.specs.Chosen.{ChosenIsImage};
ghost use Rattle.pl_folder.specs.Disk.{IsCrashImage, State, View, read};
ghost use Rattle.pl_folder.specs.States.{settled};

/// What a number chooses is one of the images that a crash may leave.
pub fn chosen_is_an_image()
    ensures { ChosenIsImage }
{}

/// A folder as it reads is one of its images, and after a settle it is the only one.
pub fn read_is_an_image()
    ensures image { (s : State) → IsCrashImage s (read s) }
    ensures settled { (s : State) (image : View) → IsCrashImage (settled s) image → image ≡ read s }
{}
