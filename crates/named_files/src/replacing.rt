//! A file that another one takes the place of: a crash leaves the one or the other, whole.
ghost use Rattle.std.specs.Prelude.{◌≡◌, ◌≤◌, Some, None, OnOk, OnErr};
ghost use Rattle.outside.specs.Faults.{Rose};
ghost use Rattle.named_files.specs.Files.{Told, IsSettled, LeavesEither, KeepsFile, beside_of, seen};

use crate::Place;
use outside::Failed;

/// Gives the file beside it the file's name. A crash at any moment leaves the one or the other, whole.
#[tactic(auto, using(crate::proofs::Replaced::sync_fails, crate::proofs::Replaced::rename_fails, crate::proofs::Replaced::names_fail, crate::proofs::Replaced::put_leaves, crate::proofs::Replaced::put_seen, crate::proofs::Replaced::put_settled))]
pub fn put_in_place<P: Place>(place: &mut P) -> Result<(), Failed>
    requires { Told (P.state place.old) IsSettled }
    ensures kept { OnOk result (Told (P.state place.new) (λ state. seen state ≡ beside_of (P.state place.old))) }
    ensures durable { OnOk result (Told (P.state place.new) IsSettled) }
    ensures any_moment { LeavesEither (P.state place.old) (P.state place.new) (beside_of (P.state place.old)) }
    ensures silent { P.state place.old ≡ None → P.state place.new ≡ None }
    ensures locked { P.is_locked place.new ≡ P.is_locked place.old }
    ensures cause { OnErr result (Rose (P.faults place.old) (P.faults place.new)) }
    ensures never_fall { P.faults place.old ≤ P.faults place.new }
{
    place.sync_beside()?;
    place.rename()?;
    place.sync_names()?;
    Ok(())
}

// Writes the file beside it.
#[tactic(auto, using(crate::proofs::Replaced::tries_begun, crate::proofs::Replaced::keeps_begun, crate::proofs::Replaced::keeps_appended, crate::proofs::Replaced::keeps_same, crate::proofs::Replaced::begun_then, crate::proofs::Replaced::has_text))]
fn write_beside<P: Place>(place: &mut P, text: &[u8]) -> Result<(), Failed>
    ensures wrote { OnOk result (Told (P.state place.new) (λ state. state.beside ≡ text.now)) }
    ensures same { KeepsFile (P.state place.old) (P.state place.new) }
    ensures locked { P.is_locked place.new ≡ P.is_locked place.old }
    ensures cause { OnErr result (Rose (P.faults place.old) (P.faults place.new)) }
    ensures never_fall { P.faults place.old ≤ P.faults place.new }
{
    place.begin()?;
    place.append(text)?;
    Ok(())
}

/// Puts a file with this text in the place of the one that is there. A crash at any moment leaves the one or the other, whole.
#[tactic(auto, using(crate::proofs::Replaced::either_kept, crate::proofs::Replaced::put_after, crate::proofs::Replaced::settled_kept, crate::proofs::Replaced::seen_after))]
pub fn replace<P: Place>(place: &mut P, text: &[u8]) -> Result<(), Failed>
    requires { Told (P.state place.old) IsSettled }
    ensures kept { OnOk result (Told (P.state place.new) (λ state. seen state ≡ Some text.now)) }
    ensures durable { OnOk result (Told (P.state place.new) IsSettled) }
    ensures any_moment { LeavesEither (P.state place.old) (P.state place.new) (Some text.now) }
    ensures locked { P.is_locked place.new ≡ P.is_locked place.old }
    ensures cause { OnErr result (Rose (P.faults place.old) (P.faults place.new)) }
    ensures never_fall { P.faults place.old ≤ P.faults place.new }
{
    write_beside(place, text)?;
    put_in_place(place)?;
    Ok(())
}

/// Takes the name from the file, so that it is used once. A crash at any moment leaves it as it was, or none; behind this it leaves none.
#[tactic(auto, using(crate::proofs::Replaced::away_fails, crate::proofs::Replaced::away_names_fail, crate::proofs::Replaced::away_leaves, crate::proofs::Replaced::away_seen, crate::proofs::Replaced::away_settled))]
pub fn use_up<P: Place>(place: &mut P) -> Result<(), Failed>
    requires { Told (P.state place.old) IsSettled }
    ensures gone { OnOk result (Told (P.state place.new) (λ state. seen state ≡ None)) }
    ensures durable { OnOk result (Told (P.state place.new) IsSettled) }
    ensures any_moment { LeavesEither (P.state place.old) (P.state place.new) None }
    ensures locked { P.is_locked place.new ≡ P.is_locked place.old }
    ensures cause { OnErr result (Rose (P.faults place.old) (P.faults place.new)) }
    ensures never_fall { P.faults place.old ≤ P.faults place.new }
{
    place.put_away()?;
    place.sync_names()?;
    Ok(())
}
