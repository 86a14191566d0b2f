// The words that the engine and its callers share: positions, commands, the session and the replies; and the present position's standing.
// What they mean is said in specs/, from the papers alone; nothing here knows how the engine keeps its marks.
#![tactic(auto)]

ghost use Rattle.std.specs.Prelude.{◌≡◌, [], ◌∷◌, IfOk};
ghost use Rattle.history.specs.declared.Command.TheVariants.{Close};
ghost use Rattle.history.specs.Replies.{number_of, number_told, told, acceptances, value_refusal, lent_refusal};
ghost use Rattle.history.specs.Answers.{answered};
ghost use Rattle.history.specs.Minima.{next as next_of};
ghost use Rattle.history.specs.Standings as Standings;
ghost use Rattle.history.specs.Standings.{transition_of, event_of};
ghost use Rattle.history.specs.StateVariable.{by_section_2};

// A place in the stream of accepted Values, from 1; 0 stands before the first.
#[derive(Clone, Copy, Default, PartialEq, Eq, PartialOrd, Ord)]
pub struct Position(pub u32);

// "The highest is 4,294,967,295."
const HIGHEST: Position = Position(u32::MAX);

// The present position's standing.
#[derive(Clone, Copy, PartialEq, Eq)]
pub enum Standing {
    None,
    Unmarked,
    Marked,
    Closed,
}

// The least value of a range, and the place where it stands: a position of a stream or, in `blocks`, an offset of a stored take.
#[derive(Clone, Copy, Default, PartialEq, Eq)]
pub struct RangeMinimum<P> {
    pub value: i32,
    pub place: P,
}

// A range minimum and the position where it stands: document 01's "dip".
pub type Minimum = RangeMinimum<Position>;

#[derive(Clone, Copy, PartialEq, Eq)]
pub enum Command {
    Value(i32),
    Mark,
    Query(Position),
    Close(Position),
}

// Document 01, "Session and area": N, K, the present position, the last value, the number of active marks, the standing.
#[derive(Clone, Copy, PartialEq, Eq)]
pub struct Session {
    pub words: usize,
    pub limit: usize,
    pub present: Position,
    pub last: i32,
    pub active: usize,
    pub standing: Standing,
}

// Why a command, an opening or a reading is refused: document 01's list, then document 02's, in whose order `u8::from` numbers them.
#[derive(Clone, Copy, PartialEq, Eq)]
pub enum Refusal {
    AreaTooShort,
    UnknownKind,
    ArgumentCutOff,
    Unopened,
    OtherLength,
    LastPosition,
    NothingToMark,
    AlreadyMarked,
    AlreadyClosed,
    Full,
    NotActive,
    WidthOutOfRange,
    TooFewWords,
    RangeOutOfTake,
    OtherIndexLength,
}

// The reply to a command: an acceptance, with what it shows, if anything, or a refusal.
pub type Reply = Result<Option<Minimum>, Refusal>;

// What a call with a session comes to: what an acceptance shows, with the session that it leaves, or a refusal.
pub type Outcome<S> = Result<(Option<Minimum>, S), Refusal>;

// A reply, with the session after it: the engine's, or a window's.
#[derive(Clone, Copy)]
pub struct Answer<S> {
    pub reply: Reply,
    pub session: S,
}

impl<S: Copy> Answer<S> {
    // What a call with the session `before` answers. After a refusal the session is the one that came in.
    pub fn of(before: S, outcome: Outcome<S>) -> Answer<S>
        ensures { result ≡ answered before outcome }
    {
        match outcome {
            Ok((shown, session)) => Answer {
                reply: Ok(shown),
                session,
            },
            Err(why) => Answer {
                reply: Err(why),
                session: before,
            },
        }
    }
}

// What a command is to the present position's standing: a "step" of document 02, point 4.
#[derive(Clone, Copy, PartialEq, Eq)]
pub enum Event {
    Value,
    Mark,
    CloseOfPresent,
    Other,
}

// The refusal that is due to an event, if one is, and the standing after its acceptance. Where a refusal is due the standing stays.
// It is no `Result`, since both are told of every event at every standing: of a refused event, too, the standing, which is proved to stay.
#[derive(Clone, Copy, PartialEq, Eq)]
pub struct Transition {
    pub due: Option<Refusal>,
    pub after: Standing,
}

// A refusal's number in document 01's list or, of a window's opening and of a stored take, document 02's.
impl From<Refusal> for u8 {
    ghost from_gives = { λ refusal number. number ≡ number_of refusal };

    fn from(refusal: Refusal) -> u8 {
        match refusal {
            Refusal::AreaTooShort => 1,
            Refusal::UnknownKind => 2,
            Refusal::ArgumentCutOff => 3,
            Refusal::Unopened => 4,
            Refusal::OtherLength => 5,
            Refusal::LastPosition => 6,
            Refusal::NothingToMark => 7,
            Refusal::AlreadyMarked => 8,
            Refusal::AlreadyClosed => 9,
            Refusal::Full => 10,
            Refusal::NotActive => 11,
            Refusal::WidthOutOfRange => 12,
            Refusal::TooFewWords => 13,
            Refusal::RangeOutOfTake => 14,
            Refusal::OtherIndexLength => 15,
        }
    }
}

// The papers' number of a reply, whatever it shows: 0 of an acceptance.
pub fn reply_number<T: Drop>(reply: Result<T, Refusal>) -> u8
    ensures { result ≡ number_told reply }
{
    match reply {
        Ok(_) => 0,
        Err(refusal) => u8::from(refusal),
    }
}

// How many acceptances a reply is: 1, or 0 of a refusal.
pub fn acceptances_of(reply: Reply) -> usize
    ensures { result ≡ acceptances (told reply ∷ []) }
{
    usize::from(reply.is_ok())
}

// What every call with a session asks first, where N words were opened and n are lent: 4 without an opening, then 5 for another length.
pub fn lent(opened: usize, n: usize) -> Result<(), Refusal>
    ensures { number_told result ≡ lent_refusal opened n 0 }
{
    if opened == 0 {
        return Err(Refusal::Unopened);
    }
    if n != opened {
        return Err(Refusal::OtherLength);
    }
    Ok(())
}

impl Position {
    // The position of the next value, or 6 where this is the highest.
    pub fn next(self) -> Result<Position, Refusal>
        ensures refused { number_told result ≡ value_refusal self }
        ensures next { IfOk result (λ next. next ≡ next_of self) }
    {
        if self == HIGHEST {
            return Err(Refusal::LastPosition);
        }
        Ok(Position(self.0 + 1))
    }
}

fn allowing(after: Standing) -> Transition
    ensures { result ≡ Standings.allowing after }
{
    Transition { due: None, after }
}

fn refusing(why: Refusal, standing: Standing) -> Transition
    ensures { result ≡ Standings.refusing why standing }
{
    Transition {
        due: Some(why),
        after: standing,
    }
}

// The standing by section 2 of source document 000, where it is "a state variable t that is associated with the current position j",
// sentence by sentence in that order, which is the order of the arms: Value resets, Mark tests marked, Close of the present position, then
// the closed test. So a Mark is asked about before the Close and behind it. What section 2 does not say stands last, and is document 01's.
fn by_section_2(event: Event, standing: Standing) -> Transition
    ensures { result ≡ by_section_2 event standing }
{
    match (event, standing) {
        // "Every time a Value command is issued this variable is set to the unmarked state, because the value of j changes."
        (Event::Value, _) => allowing(Standing::Unmarked),
        // "If a Mark command is processed when t is in this state then the sequence is valid, and t is set to marked."
        (Event::Mark, Standing::Unmarked) => allowing(Standing::Marked),
        // "If t was already in the marked state then the sequence is invalid.": 8
        (Event::Mark, Standing::Marked) => refusing(Refusal::AlreadyMarked, standing),
        // "If the Close command is called with i = j this variable changes to the closed state."
        (Event::CloseOfPresent, _) => allowing(Standing::Closed),
        // "Hence if a Mark command is issued when j is in the closed state the sequence is also invalid.": 9
        (Event::Mark, Standing::Closed) => refusing(Refusal::AlreadyClosed, standing),
        // Document 01, 7: "Mark, when the standing is none."
        (Event::Mark, Standing::None) => refusing(Refusal::NothingToMark, standing),
        // Any other command, a Query or a Close of another position, leaves the standing. Document 01, of a Query: "the paper stays."
        (Event::Other, _) => allowing(standing),
    }
}

// What is due to an event by the standing, and the standing after its acceptance. The engine's Value, Mark and Close call this; to a Value
// and a Close nothing is due at any standing. Nowhere else does the engine choose or test one, but for the opening's, `Standing::None`.
#[tactic(auto, using(crate::proofs::StateVariable::as_document_01))]
pub fn transition_of(event: Event, standing: Standing) -> Transition
    ensures { result ≡ transition_of event standing }
{
    by_section_2(event, standing)
}

// What a Close of position i is to the standing: section 2's "called with i = j" is tested here.
pub fn close_event(present: Position, i: Position) -> Event
    ensures { result ≡ event_of present (Close i) }
{
    if i == present {
        return Event::CloseOfPresent;
    }
    Event::Other
}
