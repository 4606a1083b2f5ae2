// Why an image, a message, a list of coefficients, a catch-up or an edit is refused.
#![tactic(auto)]

ghost use Rattle.std.specs.Prelude.{◌≡◌};
ghost use Rattle.refusal.specs.Refusals.{number, place};

#[derive(Clone, Copy, Debug, PartialEq, Eq)]
pub enum Refusal {
    // Too few bytes, not as many as the length field says, or of a message not its size.
    BadLength,
    // A version that is not read.
    BadVersion,
    // A table over its limit, or counts that don't match the length.
    BadCount,
    // A value out of range, or a field that has to be zero and is not.
    BadValue,
    // An id out of order or range, missing, of the wrong kind, or repeated.
    BadId,
    // An unknown operation, or a message with the number 0.
    BadOperation,
    // An earlier message has not arrived yet.
    Ahead,
    // No curve has the id.
    NoCurve,
    // A pick that is not finite, or too far away.
    BadPick,
    // This kind of curve can't be edited so.
    WrongKind,
    // A freeform curve is in the sketch.
    FreeformNear,
    // There is no place to split at.
    NoCut,
    // The relation at this place is not met.
    RelationsUnmet(usize),
    // The line's end is used by another curve, or fixed.
    EndHeld,
    // The line lies along another curve.
    Overlap,
    // The line is too short to have a direction, or a hit lies off it.
    OffLine,
    // Two curves are met equally near.
    Tie,
    // The line, prolonged, meets nothing.
    NothingMet,
    // The relation at this place would not be met afterwards.
    RelationsBroken(usize),
    // No coefficients, too many, or one that is not finite, also in a derivative.
    BadCoefficients,
    // The budget ran out.
    BudgetSpent,
    // A table is full.
    TableFull,
    // There are no more ids, or no more numbers of edits.
    IdsSpent,
    // A new point lies too far away.
    PointFarAway,
    // A lent buffer is too short.
    ShortBuffer,
    // A message after the wall's count has left the window.
    LeftWindow,
    // The wall's count is above the desk's.
    CountAbove,
    // A message with another mark.
    Foreign,
}

impl Refusal {
    // The number by which hosts know it.
    pub fn number(self) -> u8
        ensures { result ≡ number self }
    {
        match self {
            Refusal::BadLength => 1,
            Refusal::BadVersion => 2,
            Refusal::BadCount => 3,
            Refusal::BadValue => 4,
            Refusal::BadId => 5,
            Refusal::BadOperation => 6,
            Refusal::Ahead => 7,
            Refusal::NoCurve => 8,
            Refusal::BadPick => 9,
            Refusal::WrongKind => 10,
            Refusal::FreeformNear => 11,
            Refusal::NoCut => 12,
            Refusal::RelationsUnmet(_) => 13,
            Refusal::EndHeld => 14,
            Refusal::Overlap => 15,
            Refusal::OffLine => 16,
            Refusal::Tie => 17,
            Refusal::NothingMet => 18,
            Refusal::RelationsBroken(_) => 19,
            Refusal::BadCoefficients => 20,
            Refusal::BudgetSpent => 21,
            Refusal::TableFull => 22,
            Refusal::IdsSpent => 23,
            Refusal::PointFarAway => 24,
            Refusal::ShortBuffer => 25,
            Refusal::LeftWindow => 26,
            Refusal::CountAbove => 27,
            Refusal::Foreign => 28,
        }
    }

    // The place of the relation that it speaks of; 0 where it speaks of none.
    pub fn place(self) -> usize
        ensures { result ≡ place self }
    {
        match self {
            Refusal::RelationsUnmet(place) | Refusal::RelationsBroken(place) => place,
            _ => 0,
        }
    }
}
