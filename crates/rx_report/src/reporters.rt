//! Who is told of notes. One that refuses a note is dropped at that note, and the others miss nothing.

ghost use Rattle.std.specs.Prelude.{◌≡◌, ◌<◌, [], ◌∷◌, List, Option, IfOk, true, vec_len, vec_capacity};
ghost use Rattle.rx_report.specs.Told.{AreTold, HasSeen};
ghost use Rattle.rx_report.specs.declared.notes.Note.{Note};

use crate::notes::Note;
use rx_world::Refused;

/// Is told of notes, one after the other.
pub trait Reporter: Drop + Send {
    /// The notes that it took, where told.
    ghost seen: { Self → Option (List Note) };

    /// Takes a note, or refuses it: then nothing is known of what it saw, and it is told nothing more.
    fn note(&mut self, told: &Note) -> Result<(), Refused>
        ensures seen { IfOk result (λ _. HasSeen (seen self.old) (seen self.new) (told.now ∷ [])) };
}

impl Reporter for Box<dyn Reporter> {
    ghost seen = { λ b. (Reporter-box b).seen b.value };

    fn note(&mut self, told: &Note) -> Result<(), Refused> {
        (**self).note(told)
    }
}

/// Takes the first of a list.
fn take_first<T>(list: &mut Vec<T>) -> T
    requires { 0 < vec_len list.old }
    ensures items { list.old.items ≡ result ∷ list.new.items }
    ensures capacity { vec_capacity list.new ≡ vec_capacity list.old }
{
    list.remove(0)
}

/// Tells one, and answers whether it took the note.
fn took<T: Reporter>(reporter: &mut T, told: &Note) -> bool
    ensures { result ≡ true →
        HasSeen (T.seen reporter.old) (T.seen reporter.new) (told.now ∷ []) }
{
    reporter.note(told).is_ok()
}

/// Tells each of a list in turn, and drops one that refuses at once. It takes no memory but what they take. That no
/// other is dropped no clause says: a reporter that is gone can't be asked.
pub fn tell<T: Reporter>(list: &mut Vec<T>, told: &Note)
    ensures { AreTold T.seen (told.now ∷ []) list.old.items list.new.items }
{
    for _ in 0..list.len() {
        let mut reporter = take_first(list);
        if took(&mut reporter, told) {
            list.push_reserved(reporter);
        }
    }
}

/// Tells each of a list all these notes, one after the other.
pub fn tell_all<T: Reporter>(list: &mut Vec<T>, told: &[Note])
    ensures { AreTold T.seen told.now list.old.items list.new.items }
{
    for note in told {
        tell(list, note);
    }
}

/// Reporters of any kinds.
#[derive(Drop)]
pub struct Reporters {
    pub list: Vec<Box<dyn Reporter>>,
}

impl Reporters {
    /// These reporters.
    pub fn new(list: Vec<Box<dyn Reporter>>) -> Reporters
        ensures { result.list ≡ list }
    {
        Reporters { list }
    }

    /// Tells each in turn, as [`tell`].
    pub fn tell(&mut self, told: &Note)
        ensures { AreTold (λ b. (Reporter-box b).seen b.value) (told.now ∷ [])
            self.old.list.items self.new.list.items }
    {
        tell(&mut self.list, told);
    }
}
