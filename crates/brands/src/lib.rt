// The brands that a file answers to.
#![tactic(auto)]

pub mod conditions;

ghost use Rattle.std.specs.Prelude.{◌≡◌};
ghost use Rattle.codes.specs.Codes.{FTYP};
ghost use Rattle.boxes.specs.Boxes.{boxes};
ghost use Rattle.boxes.specs.Seek.{find};
ghost use Rattle.layout.specs.Every.{TracksAt};
ghost use Rattle.judge.specs.Acceptance.{Meets};
ghost use Rattle.brands.specs.Brands.{beside_it, own_conditions, brand_holds};
ghost use Rattle.brands.specs.Own.{OwnAt};
ghost use Rattle.brands.specs.Calls.{brand_answer};

use conditions::Own;
use layout::entries;
use layout::every::Tracks;
use release::compatible;
use rule::Answer;

// Whether the list has what a brand asks for beside its own code.
#[tactic(auto, unfolding(crate::specs::Brands::beside_it, wire::specs::Tests::if_eq))]
fn beside(file: &[u8], o: Own, code: usize) -> bool
    requires { OwnAt file.now o }
    ensures { result ≡ beside_it code (find FTYP (boxes file.now)) }
{
    match code {
        codes::GP4 => true,
        codes::GP5 => o.isom,
        _ => o.base,
    }
}

// Whether a brand's own conditions hold; no other code is a brand.
#[tactic(auto, unfolding(crate::specs::Brands::own_conditions, wire::specs::Tests::if_eq))]
fn own(file: &[u8], o: Own, code: usize) -> bool
    requires { OwnAt file.now o }
    ensures { result ≡ own_conditions code file.now }
{
    match code {
        codes::GP4 | codes::GP5 => o.early,
        codes::GP6 => o.few,
        codes::GR6 => o.ready,
        _ => false,
    }
}

// Whether a brand's answer is yes.
#[tactic(auto, unfolding(crate::specs::Brands::brand_holds, wire::specs::Clauses::every))]
pub fn brand_holds(file: &[u8], o: Own, code: usize) -> bool
    requires { OwnAt file.now o }
    ensures { result ≡ brand_holds code file.now }
{
    let ftyp = boxes::seek::payload(file, codes::FTYP, 0);
    compatible::listed(ftyp, code) && beside(file, o, code) && own(file, o, code)
}

// The same of an accepted file, looked at for this alone.
fn brand_of(file: &[u8], e: Tracks, code: usize) -> bool
    requires { Meets file.now × TracksAt file.now e }
    ensures { result ≡ brand_holds code file.now }
{
    let l = entries::lay(file, e);
    brand_holds(file, conditions::asked(file, e, l), code)
}

// The brand answer of a file: 1 for yes, 0 for no.
pub fn brand(file: &[u8], code: usize) -> Answer
    ensures { result ≡ brand_answer file.now code }
{
    let tracks = judge::judge_tracks(file)?;
    Ok(usize::from(brand_of(file, tracks, code)))
}
