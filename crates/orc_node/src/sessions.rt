//! The sessions of a node.
ghost use Rattle.std.specs.Prelude.{◌≡◌, ◌≤◌, not, nat_eq, length, if◌then◌else◌};
ghost use Rattle.std.specs.List.{filter};
ghost use Rattle.orc_device.specs.Nodes.{freed, session_ended, next_session, least_of, roomy, session_begun, dropped, is_held, is_held_by_session};
ghost use Rattle.orc_node.specs.Nodes.{with_state};
ghost use Rattle.orc_node.specs.inside.Held.{unless, known_unless};

use crate::node::Node;
use crate::refusing::is_held_by_session;
use arrayvec::ArrayVec;
use orc_tree::Tree;

fn freed(lock: Option<u32>, session: u32) -> Option<u32>
    ensures { result ≡ freed lock session }
{
    if is_held_by_session(lock, session) {
        None
    } else {
        lock
    }
}

// No tree, where there is a cause, and else this one.
fn unless(cause: bool, tree: Option<Tree>) -> Option<Tree>
    ensures { result ≡ unless cause tree }
{
    if cause { None } else { tree }
}

// What is known of candidate, which becomes running where there is a cause.
fn known_unless(cause: bool, running: Option<bool>, candidate: Option<bool>) -> Option<bool>
    ensures { result ≡ known_unless cause running candidate }
{
    if cause { running } else { candidate }
}

fn end_number(live: &mut ArrayVec<u32, 8>, session: u32)
    ensures items { live.new.items ≡ filter (λ other. not (nat_eq session other)) live.old.items }
    ensures bound { length live.new.items ≤ length live.old.items }
{
    live.retain(|other| session != *other);
}

fn next_session(last: u32) -> u32
    ensures { result ≡ next_session last }
{
    if last < 4294967295 { last + 1 } else { 1 }
}

fn least_of(first: u32, later: &[u32]) -> u32
    ensures { result ≡ least_of first later.now }
{
    let mut least = first;
    for number in later {
        if *number < least {
            least = *number;
        }
    }
    least
}

impl Node {
    /// Ends a session: its locks are free, and where it held the candidate's, candidate becomes
    /// running. A commit that is pending stays.
    pub fn end_session(&mut self, session: u32)
        ensures { self.new ≡ with_state self.old (session_ended self.old.state session) }
    {
        let holds = is_held_by_session(self.candidate_lock, session);
        let candidate = self.candidate.take();
        self.candidate = unless(holds, candidate);
        self.verdict = known_unless(holds, self.running_verdict, self.verdict);
        self.running_lock = freed(self.running_lock, session);
        self.candidate_lock = freed(self.candidate_lock, session);
        end_number(&mut self.live, session);
    }

    // Ends the session of the least number, where eight live.
    fn end_least(&mut self)
        ensures { self.new ≡ with_state self.old (roomy self.old.state self.old.state.live) }
    {
        if self.live.len() > 7 {
            let least = least_of(self.live.as_slice()[0], &self.live.as_slice()[1..]);
            self.end_session(least);
        }
    }

    /// Begins a session, and gives its number: one more than the last, and 1 after the largest
    /// 32-bit number. A live session of that number ends first, and then the one of the least number
    /// where eight live.
    pub fn start_session(&mut self) -> u32
        ensures state { self.new ≡ with_state self.old (session_begun self.old.state) }
        ensures number { result ≡ next_session self.old.state.last }
    {
        let session = next_session(self.last);
        self.end_session(session);
        self.end_least();
        self.live.push(session);
        self.last = session;
        session
    }

    /// Ends all sessions.
    pub fn drop_sessions(&mut self)
        ensures { self.new ≡ with_state self.old (dropped self.old.state) }
    {
        let held = self.candidate_lock.is_some();
        let candidate = self.candidate.take();
        self.candidate = unless(held, candidate);
        self.verdict = known_unless(held, self.running_verdict, self.verdict);
        self.running_lock = None;
        self.candidate_lock = None;
        self.live.clear();
    }
}
