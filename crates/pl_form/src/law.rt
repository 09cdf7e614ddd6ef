// Laws of forms.
ghost use Rattle.pl_form.specs.Files.{BadAreTold, FormsAreBytes, FormsAreRead, FormsAreTold, NothingElseIsRead, OriginalsAreBare, PlainAreTold};
ghost use Rattle.pl_form.specs.Marks.{FormsAreUndone, NoFormOfTwo};

/// A law: from the bytes of a form alone its original comes back. So no file is a form of two originals, nor of one original in two ways: a form has one slot, stamp, checksum, list, conflicts and version. A form is bytes.
pub fn forms_have_one_original()
    ensures undone { FormsAreUndone }
    ensures one { NoFormOfTwo }
    ensures bytes { FormsAreBytes }
{}

/// A law: what a file is, as a function of its bytes. A form is read with all that it is made of, and nothing but a form is; no original is a form. A file that bears a mark and is no form is refused for its mark, and any other file is what acceptance says of it.
pub fn files_are_told()
    ensures forms { FormsAreRead }
    ensures others { NothingElseIsRead }
    ensures bare { OriginalsAreBare }
    ensures marked { FormsAreTold }
    ensures bad { BadAreTold }
    ensures plain { PlainAreTold }
{}
