ghost use Rattle.std.specs.Prelude.{◌≡◌, List, map};
ghost use Rattle.std.specs.Option.{option_map};
ghost use Rattle.std.specs.String.{string_bytes};
ghost use Rattle.conc_show_model.specs.Grammar as spec;
ghost use Rattle.conc_show_model.specs.Grammar.{asked, shown, words_of};

/// What is made of a history.
#[derive(Clone, Copy, Debug, PartialEq, Eq)]
pub enum Form {
    Timeline,
    Svg,
    Csv,
    Json,
}

/// A form and the names of the files that it is made of. Without a history, or where it is `-`, the
/// history is on standard input.
#[derive(Clone, Copy)]
pub struct Words<'a> {
    pub form: Form,
    pub history: Option<&'a [u8]>,
    pub plan: Option<&'a [u8]>,
    pub script: Option<&'a [u8]>,
}

// An option whose value is the next word.
#[derive(Clone, Copy)]
pub(crate) enum Waits {
    Plan,
    Script,
}

// What words behind the form say.
#[derive(Clone, Copy)]
pub(crate) struct Said<'a> {
    pub waits: Option<Waits>,
    pub history: Option<&'a [u8]>,
    pub plan: Option<&'a [u8]>,
    pub script: Option<&'a [u8]>,
}

fn with_history<'a>(said: Said<'a>, word: &'a [u8]) -> Option<Said<'a>>
    ensures { option_map shown result ≡ spec.with_history (shown said.entry) word.now }
{
    if said.history.is_some() {
        return None;
    }
    Some(Said {
        waits: None,
        history: Some(word),
        ..said
    })
}

// The value of an option.
fn with_value<'a>(said: Said<'a>, option: Waits, word: &'a [u8]) -> Option<Said<'a>>
    ensures { option_map shown result ≡ spec.with_value (shown said.entry) option word.now }
{
    let said = Said {
        waits: None,
        ..said
    };
    match option {
        Waits::Plan if said.plan.is_none() => Some(Said {
            plan: Some(word),
            ..said
        }),
        Waits::Script if said.script.is_none() => Some(Said {
            script: Some(word),
            ..said
        }),
        _ => None,
    }
}

fn with_waits<'a>(said: Said<'a>, waits: Waits) -> Option<Said<'a>>
    ensures { option_map shown result ≡ spec.with_waits (shown said.entry) waits }
{
    Some(Said {
        waits: Some(waits),
        ..said
    })
}

fn is_history(word: &[u8]) -> bool
    ensures { result ≡ spec.is_history word.now }
{
    word == b"-".as_slice() || (!word.is_empty() && !word.starts_with(b"-"))
}

// A word that is no value of the option before it.
#[tactic(auto, unfolding(crate::specs::Grammar::with_word))]
fn with_word<'a>(said: Said<'a>, word: &'a [u8]) -> Option<Said<'a>>
    ensures { option_map shown result ≡ spec.with_word (shown said.entry) word.now }
{
    if word == b"--plan".as_slice() {
        with_waits(said, Waits::Plan)
    } else if word == b"--script".as_slice() {
        with_waits(said, Waits::Script)
    } else if let Some(plan) = word.strip_prefix(b"--plan=") {
        with_value(said, Waits::Plan, plan)
    } else if let Some(script) = word.strip_prefix(b"--script=") {
        with_value(said, Waits::Script, script)
    } else if is_history(word) {
        with_history(said, word)
    } else {
        None
    }
}

fn after_word<'a>(said: Said<'a>, word: &'a [u8]) -> Option<Said<'a>>
    ensures { option_map shown result ≡ spec.after_word (shown said.entry) word.now }
{
    match said.waits {
        None => with_word(said, word),
        Some(option) => with_value(said, option, word),
    }
}

// What the words behind the form say.
fn read_said<'a>(words: &'a [String]) -> Option<Said<'a>>
    ensures { option_map shown result ≡ spec.said_from spec.nothing (map string_bytes words.now) }
{
    let mut said = Said {
        waits: None,
        history: None,
        plan: None,
        script: None,
    };
    let mut rest = words;
    while let Some((word, behind)) = rest.split_first() {
        said = after_word(said, word.as_bytes())?;
        rest = behind;
    }
    if said.waits.is_some() {
        None
    } else {
        Some(said)
    }
}

#[tactic(auto, unfolding(crate::specs::Grammar::form_of))]
fn form_of(word: &str) -> Option<Form>
    ensures { result ≡ spec.form_of word.now }
{
    match word {
        "timeline" => Some(Form::Timeline),
        "svg" => Some(Form::Svg),
        "csv" => Some(Form::Csv),
        "json" => Some(Form::Json),
        _ => None,
    }
}

/// What the words behind the program's name ask for. It is None exactly where they are no command.
#[tactic(auto, unfolding(crate::specs::Grammar::words_of))]
pub fn read_words<'a>(words: &'a [String]) -> Option<Words<'a>>
    ensures { option_map asked result ≡ words_of (map string_bytes words.now) }
{
    let (word, behind) = words.split_first()?;
    let form = form_of(word.as_str())?;
    let said = read_said(behind)?;
    Some(Words {
        form,
        history: said.history,
        plan: said.plan,
        script: said.script,
    })
}
