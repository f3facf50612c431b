// The last of a call on bodies: all memory that was lent is zero, whatever the answer.
#![tactic(auto)]

ghost use Rattle.body_clear.specs.Clearing.{Cleared};

// Zero in every word that was lent.
pub fn clear(rows: &mut [u16], shared: &mut [u16], codes: &mut [u16], used: &mut [u32])
    ensures { Cleared rows.old shared.old codes.old used.old rows.new shared.new codes.new used.new }
{
    lent_u16::wipe(rows);
    lent_u16::wipe(shared);
    lent_u16::wipe(codes);
    lent_u32::wipe32(used);
}
