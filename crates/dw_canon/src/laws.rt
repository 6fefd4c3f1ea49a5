//! Laws of normal forms, for the layers above. The functions do nothing: their contracts are proved.

ghost use Rattle.dw_canon.specs.{Bound.WithinShares, Headline.Headline, Laws.{NormalFormExists, NormalFormIsOne}};
ghost use Rattle.dw_canon.specs.Laws.{MeaningIsKept, NormalAgain, SameNormalForm, FewestRows, ExactRows, NormalRows, NoneFewer};
ghost use Rattle.dw_canon.specs.Inner.{Laws.{InitialProgram, MemberProgram, ChangesAreOne}, Renders.Readback};

/// Two accepted sections have byte-equal normal forms exactly where they say the same; each normal form is accepted, says what
/// its source says, and is its own normal form.
pub fn headline()
    ensures { Headline }
{}

/// What holds of the normal forms of accepted sections.
pub fn normal_laws()
    ensures exists { NormalFormExists }
    ensures one { NormalFormIsOne }
    ensures kept { MeaningIsKept }
    ensures again { NormalAgain }
    ensures same { SameNormalForm }
    ensures fewest { FewestRows }
    ensures exact { ExactRows }
    ensures rows { NormalRows }
    ensures fewer { NoneFewer }
{
    program_laws();
    meaning_kept();
}

/// A normal form is no longer than the lengths of its section's programs allow.
pub fn length_law()
    ensures { WithinShares }
{}

// What holds of the programs of a normal form, and of changes: the laws of normal forms rest on it.
fn program_laws()
    ensures initial { InitialProgram }
    ensures member { MemberProgram }
    ensures one { ChangesAreOne }
{}

// What is written of an accepted section, with the changes of each FDE, is accepted and means the same: so do they on this.
fn meaning_kept()
    ensures { Readback }
{}
