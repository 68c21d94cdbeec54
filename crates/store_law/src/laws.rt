//! What follows from the law of a store: each law is the contract of a function that does nothing.
ghost use Rattle.std.specs.Prelude.{◌≡◌, ◌≤◌, ◌++◌, false, List};
ghost use Rattle.plain_table.specs.Commands.{Command};
ghost use Rattle.plain_table.specs.Step.{Answer, reply_of};
ghost use Rattle.plain_table.specs.Step.Answer.{Refused};
ghost use Rattle.plain_table.specs.Table.{Table};
ghost use Rattle.plain_table.specs.declared.refusal.Refusal.{Refusal};
ghost use Rattle.plain_table.specs.declared.refusal.Refusal.TheVariants as refusal;
ghost use Rattle.store_law.specs.Lawful.{blames_device};
ghost use Rattle.store_law.specs.Sessions.{LawfulStep, Session, SessionState};
ghost use Rattle.store_law.specs.States.{Request};
ghost use Rattle.store_law.specs.States.Request.{BadCommand};
ghost use Rattle.store_law.specs.States.StoreState.{Dead};

/// A bad line may be answered so in every state, and leaves it.
#[tactic(auto, using(crate::specs::Laws::a_bad_line_is_lawful))]
pub fn a_bad_line_is_lawful()
    ensures { (s : SessionState) → LawfulStep s BadCommand (Refused refusal.BadLine) s }
{}

/// What the table answers by itself blames no device.
#[tactic(auto, using(crate::specs::Laws::no_reply_of_the_table_blames_the_device))]
pub fn no_reply_of_the_table_blames_the_device()
    ensures { (t : Table) (c : Command) (r : Refusal) → reply_of t c ≡ Refused r → blames_device r ≡ false }
{}

/// One session after another is a session.
#[tactic(auto, using(crate::specs::Laws::sessions_join))]
pub fn sessions_join()
    ensures { (old mid new : SessionState) (rs ss : List Request) (xs ys : List Answer) →
        Session old rs xs mid → Session mid ss ys new → Session old (rs ++ ss) (xs ++ ys) new }
{}

/// The count of the device's faults does not fall in a session.
#[tactic(auto, using(crate::specs::Laws::no_count_falls))]
pub fn no_count_falls()
    ensures { (old new : SessionState) (rs : List Request) (xs : List Answer) → Session old rs xs new →
        old.faults ≤ new.faults }
{}

/// A store that has failed stays so.
#[tactic(auto, using(crate::specs::Laws::a_dead_store_stays_dead))]
pub fn a_dead_store_stays_dead()
    ensures { (old new : SessionState) (rs : List Request) (xs : List Answer) → old.state ≡ Dead →
        Session old rs xs new → new.state ≡ Dead }
{}

/// What stops leave is told from the same moment on through a session.
#[tactic(auto, using(crate::specs::Laws::a_session_keeps_its_beginning))]
pub fn a_session_keeps_its_beginning()
    ensures { (old new : SessionState) (rs : List Request) (xs : List Answer) → Session old rs xs new →
        new.stops.since ≡ old.stops.since }
{}
