//! What each rule allows in a line, in words.
use orc_decls::Rule;
use orc_lines::Keyword;

/// What a rule allows in a line with this first word.
pub(crate) fn rule_words(rule: Rule, word: Keyword) -> &'static str {
    match rule {
        Rule::Size => {
            "This passes a limit: 16777216 bytes of a bundle, 1048576 of a line, 64 of a name, 4096 of a path, a key \
             or a value; 32 steps of a path, 8 keys of a step; 256 devices, 256 callers, 100000 steps of the script; \
             1 to 86400 seconds of a `tick`."
        }
        Rule::Utf8 =>
            "A bundle is UTF-8 text; in this line <U+FFFD> stands for bytes that are no UTF-8.",
        Rule::Header => "The first line that is neither empty nor a comment is `orc 1`.",
        Rule::Line => "A line has one of the forms that may stand there.",
        Rule::Path => path_words(word),
        Rule::Value => {
            "In a value a backslash is \\\\, a tab \\t, a line feed \\n and a carriage return \\r. It has no other \
             control character below U+0020, and no noncharacter. On a device with a type, and in the data, each key \
             and value is one of its YANG type (RFC 7950 section 9)."
        }
        Rule::Unknown => unknown_words(word),
        Rule::Duplicate => duplicate_words(word),
        Rule::Yang =>
            "The N lines below `yang N` are the statements of one module (RFC 7950 section 6).",
        Rule::Schema => {
            "The modules of this line make one schema: each stands once in it, keeps the rules of RFC 7950, and has no \
             statement that this profile of YANG leaves out."
        }
        Rule::Template => "The N lines below `template T PATH N` are the JSON template of a list.",
        Rule::Json => "The JSON text is a body of the list that the path names, in one line.",
        Rule::Opening =>
            "The opening data is valid under its schema, and each device accepts its base.",
    }
}

// Which path stands in a line with this first word.
fn path_words(word: Keyword) -> &'static str {
    match word {
        Keyword::Template => {
            "The path is that of a list of the data that is reached through containers alone, as /ex:services/vpn, and \
             has no keys."
        }
        Keyword::Create | Keyword::Modify | Keyword::Redeploy | Keyword::Delete => {
            "The path is that of an entry of a list that has a template, as /ex:services/vpn[blue]."
        }
        Keyword::Rule => {
            "After `max` stands the path of a list or leaf-list, as /if:port, and after `forbid` that of a leaf with \
             its value, as /if:port[ge-0/0/1]/mtu = 9000."
        }
        Keyword::Meta => "The path is one of the device, as /if:port[ge-0/0/1]/mtu.",
        Keyword::Unset | Keyword::Unbase => {
            "The path is that of an entry, as /if:port[ge-0/0/1], or of a leaf, as /if:port[ge-0/0/1]/mtu."
        }
        _ => {
            "The path is that of an entry, as /if:port[ge-0/0/1], or of a leaf with its value, as \
             /if:port[ge-0/0/1]/mtu = 9000."
        }
    }
}

// What is not declared, in a line with this first word.
fn unknown_words(word: Keyword) -> &'static str {
    match word {
        Keyword::Device => {
            "No type of this name is declared above, by a line `devicetype NAME MODULE ..`."
        }
        Keyword::Datamodel | Keyword::Devicetype => {
            "A module of this line is not declared above, by a line `yang N` with the module below it."
        }
        Keyword::Json => {
            "No device of this name with a type is declared above, by a line `device NAME TYPE`."
        }
        _ => {
            "No device of this name is declared above, by a line `device NAME plain` or `device NAME TYPE`."
        }
    }
}

// What stands once, in a line with this first word.
fn duplicate_words(word: Keyword) -> &'static str {
    match word {
        Keyword::Datamodel => "The schema of the data is declared once.",
        Keyword::Template => "A name is declared once, and a list has one template.",
        Keyword::Literal | Keyword::Delete => {
            "A call names each service once. A literal service is changed by `delete` and a `literal` of another \
             name in one call, or by `delete` in a call before."
        }
        Keyword::Create | Keyword::Modify | Keyword::Redeploy => {
            "A call names each service once: `modify` gives it a whole body."
        }
        _ => "A name is declared once, and the module `orc` is built in.",
    }
}
