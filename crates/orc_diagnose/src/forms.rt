//! How a line is written, and where it stands, by its first word.
use crate::words::Words;
use orc_lines::Keyword;
use orc_text::Memory;

// Where a line stands.
#[derive(Clone, Copy)]
enum Place {
    Declaration,
    Step,
    Action,
    // What is said of the form says it.
    Said,
}

/// Adds how a line with this first word is written, and where it stands. What in particular is at fault may be said
/// already.
pub(crate) fn say_form(words: &mut Words, word: Keyword, is_said: bool) -> Result<(), Memory> {
    let (place, form) = form_of(word);
    words.say(form)?;
    words.say(place_words(place))?;
    if !is_said {
        words.say(
            " Words are separated by exactly one space, and a space in a key is written \\s; a name is a letter or \
             `_`, then letters, digits, `_`, `-` and `.`; a number has no leading zeros and is below 2^64.",
        )?;
    }
    Ok(())
}

// Where lines of a place stand.
fn place_words(place: Place) -> &'static str {
    match place {
        Place::Declaration => ", before the line `script`.",
        Place::Step => ", below the line `script` and not within a call.",
        Place::Action => ", within a call, which has 64 actions at most.",
        Place::Said => "",
    }
}

// How a declaration or the line `script` is written, or another line.
fn form_of(word: Keyword) -> (Place, &'static str) {
    match word {
        Keyword::Device => (
            Place::Declaration,
            "A device is declared as `device NAME plain` or `device NAME TYPE`",
        ),
        Keyword::Datamodel => (
            Place::Declaration,
            "The schema of the data is declared as `datamodel MODULE ..`, once",
        ),
        Keyword::Devicetype => (
            Place::Declaration,
            "A type of devices is declared as `devicetype NAME MODULE ..`",
        ),
        Keyword::Rule => (
            Place::Declaration,
            "A rule of a device is `rule DEVICE max PATH N`, with a list's path without keys at its end, or `rule \
             DEVICE forbid PATH = VALUE`",
        ),
        Keyword::Base => (
            Place::Said,
            "An item of a device's base is `base DEVICE PATH` for an entry or `base DEVICE PATH = VALUE` for a leaf, \
             before the line `script` or within a call, which has 64 actions at most.",
        ),
        Keyword::Data => (
            Place::Said,
            "An item of the opening data is `data PATH` for an entry or `data PATH = VALUE` for a leaf, before the \
             line `script`; below it the step `data` has nothing after that word, and doesn't stand within a call.",
        ),
        Keyword::Yang => (
            Place::Declaration,
            "A module is the line `yang N` and the N lines below it",
        ),
        Keyword::Template => (
            Place::Declaration,
            "A template is the line `template NAME PATH N` and the N lines below it, with the path of a list of the \
             data, without keys",
        ),
        Keyword::Script => (
            Place::Said,
            "The line `script` ends the declarations, once, and has nothing after that word.",
        ),
        _ => step_form(word),
    }
}

// How a call begins.
const CALL: &str =
    "A call begins with `call CALLER NUMBER`, below the line `script` and not within another call, and ends with a \
     line `end`; NUMBER has digits alone.";

// How the step `fault` is written.
const FAULT: &str =
    "The step is `fault DEVICE OPERATION before` or `fault DEVICE OPERATION after`, below the line `script` and not \
     within a call; OPERATION is `OpenSession`, `LockRunning`, `LockCandidate`, `Edit`, `Validate`, \
     `CommitConfirmed`, `Commit`, `Confirm`, `Cancel`, `Discard`, `UnlockCandidate`, `UnlockRunning`, `CloseSession` \
     or `GetRunning`.";

// How a step is written, or a line of a call.
fn step_form(word: Keyword) -> (Place, &'static str) {
    let form = match word {
        Keyword::Show => "The step is `show DEVICE`",
        Keyword::Json => "The step is `json DEVICE`",
        Keyword::Log => "The step is `log DEVICE`",
        Keyword::Meta => "The step is `meta DEVICE PATH`",
        Keyword::Call => return (Place::Said, CALL),
        Keyword::Begin => "The step is `begin CALLER`",
        Keyword::Step => "The step is `step DEVICE`",
        Keyword::Restart => "The step is `restart DEVICE`",
        Keyword::Tick => "The step is `tick SECONDS`",
        Keyword::Fault => return (Place::Said, FAULT),
        Keyword::Stop => "The step is `stop`, or `stop K B` with two numbers",
        Keyword::Settle => "The step is `settle` alone",
        Keyword::Recover => "The step is `recover` alone",
        Keyword::History => "The step is `history` alone",
        Keyword::Admit => "The step is `admit` alone",
        Keyword::Decide => "The step is `decide` alone",
        Keyword::Reconcile => "The step is `reconcile` alone",
        _ => return action_form(word),
    };
    (Place::Step, form)
}

// How a line of a call is written, or which words begin lines.
fn action_form(word: Keyword) -> (Place, &'static str) {
    let form = match word {
        Keyword::Create => {
            "An action is `create PATH JSON`, with an entry of a list that has a template and the object of that entry \
             without its keys"
        }
        Keyword::Modify => {
            "An action is `modify PATH JSON`, with an entry of a list that has a template and the object of that entry \
             without its keys"
        }
        Keyword::Redeploy => {
            "An action is `redeploy PATH`, with an entry of a list that has a template"
        }
        Keyword::Literal => "An action is `literal NAME`",
        Keyword::Delete => {
            "An action is `delete NAME`, or `delete PATH` for an entry of a list that has a template"
        }
        Keyword::Set => { "An action is `set PATH` for an entry or `set PATH = VALUE` for a leaf" }
        Keyword::Unset => "An action is `unset PATH`",
        Keyword::Unbase => "An action is `unbase DEVICE PATH`",
        _ => return (Place::Said, other_form(word)),
    };
    (Place::Action, form)
}

// How a line `write` or `end` is written, or which words begin lines.
fn other_form(word: Keyword) -> &'static str {
    match word {
        Keyword::Write => {
            "A line `write DEVICE PATH` for an entry or `write DEVICE PATH = VALUE` for a leaf stands below the line \
             `literal NAME` of its call."
        }
        Keyword::End => "The line `end` ends a call that has an action.",
        _ => {
            "A line begins with `device`, `base`, `rule`, `data`, `yang`, `datamodel`, `devicetype`, `template` or \
             `script`; below `script` with `begin`, `call`, `admit`, `step`, `decide`, `settle`, `tick`, `restart`, \
             `fault`, `stop`, `recover`, `reconcile`, `show`, `json`, `log`, `meta`, `data` or `history`; within a \
             call with `create`, `modify`, `redeploy`, `literal`, `write`, `delete`, `set`, `unset`, `base`, \
             `unbase` or `end`."
        }
    }
}
