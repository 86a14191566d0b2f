// How far the commands of a program have been followed, which go to a session one after the other, each with its line. What the commands are, and what the session is, is not known here.
#![tactic(auto)]

ghost use Rattle.std.specs.Prelude.{◌≡◌, [], ◌∷◌, ◌+◌, ◌<◌, ◌≤◌};
ghost use Rattle.history.specs.Replies.{told, acceptances};

use history::Answer;

// The session after the last command, how many were read, and how many of them were accepted.
#[derive(Drop)]
pub struct Progress<S> {
    pub session: S,
    pub read: usize,
    pub accepted: usize,
    ghost fewer: { accepted ≤ read },
}

impl<S: Copy> Progress<S> {
    // No command is read yet.
    pub fn new(session: S) -> Progress<S>
        ensures session { result.session ≡ session }
        ensures read { result.read ≡ 0 }
        ensures accepted { result.accepted ≡ 0 }
    {
        Progress {
            session,
            read: 0,
            accepted: 0,
        }
    }

    // One command more, with what it was answered.
    #[tactic(auto, using(crate::proofs::Counts::once))]
    pub fn after(self, answer: Answer<S>) -> Progress<S>
        requires { self.read < 18446744073709551615 }
        ensures session { result.session ≡ answer.session }
        ensures read { result.read ≡ self.read + 1 }
        ensures accepted { result.accepted ≡ self.accepted + acceptances (told answer.reply ∷ []) }
    {
        Progress {
            session: answer.session,
            read: self.read + 1,
            accepted: self.accepted + history::acceptances_of(answer.reply),
        }
    }
}
