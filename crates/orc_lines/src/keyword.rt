//! The first words of lines.
ghost use Rattle.std.specs.Prelude.{◌≡◌};
ghost use Rattle.orc_lines.specs.Keywords.{call_keyword_of, keyword_of, step_keyword_of};

/// The first word of a line.
#[derive(Clone, Copy)]
pub enum Keyword {
    Device,
    Datamodel,
    Devicetype,
    Rule,
    Base,
    Data,
    Yang,
    Template,
    Script,
    Show,
    Json,
    Meta,
    Call,
    Create,
    Modify,
    Redeploy,
    Literal,
    Write,
    Delete,
    Set,
    Unset,
    Unbase,
    End,
    Settle,
    Stop,
    Recover,
    History,
    Begin,
    Admit,
    Step,
    Decide,
    Tick,
    Restart,
    Fault,
    Reconcile,
    Log,
    /// No line has it.
    Other,
}

/// The keyword that a word is. It hands on from table to table, since one `match` on all words takes
/// long to prove.
#[tactic(auto, unfolding(crate::specs::Keywords::keyword_of))]
pub fn keyword_of(word: &str) -> Keyword
    ensures { result ≡ keyword_of word.now }
{
    match word {
        "device" => Keyword::Device,
        "datamodel" => Keyword::Datamodel,
        "devicetype" => Keyword::Devicetype,
        "rule" => Keyword::Rule,
        "base" => Keyword::Base,
        "data" => Keyword::Data,
        "yang" => Keyword::Yang,
        "template" => Keyword::Template,
        "script" => Keyword::Script,
        "show" => Keyword::Show,
        "json" => Keyword::Json,
        "meta" => Keyword::Meta,
        _ => call_keyword_of(word),
    }
}

// The keyword of a line of a call, or of a step.
fn call_keyword_of(word: &str) -> Keyword
    ensures { result ≡ call_keyword_of word.now }
{
    match word {
        "call" => Keyword::Call,
        "create" => Keyword::Create,
        "modify" => Keyword::Modify,
        "redeploy" => Keyword::Redeploy,
        "literal" => Keyword::Literal,
        "write" => Keyword::Write,
        "delete" => Keyword::Delete,
        "set" => Keyword::Set,
        "unset" => Keyword::Unset,
        "unbase" => Keyword::Unbase,
        "end" => Keyword::End,
        _ => step_keyword_of(word),
    }
}

// The keyword of a step.
fn step_keyword_of(word: &str) -> Keyword
    ensures { result ≡ step_keyword_of word.now }
{
    match word {
        "settle" => Keyword::Settle,
        "stop" => Keyword::Stop,
        "recover" => Keyword::Recover,
        "history" => Keyword::History,
        "begin" => Keyword::Begin,
        "admit" => Keyword::Admit,
        "step" => Keyword::Step,
        "decide" => Keyword::Decide,
        "tick" => Keyword::Tick,
        "restart" => Keyword::Restart,
        "fault" => Keyword::Fault,
        "reconcile" => Keyword::Reconcile,
        "log" => Keyword::Log,
        _ => Keyword::Other,
    }
}
