//! The words of the command line.
ghost use Rattle.std.specs.Prelude.{◌≡◌, ◌≤◌, ◌∷◌, length, position, option_map, IfSome, IsTrue, IsUtf8, ◌↔◌};
ghost use Rattle.std.specs.List.{list_all};
ghost use Rattle.std.specs.Str.{is_utf8};
ghost use Rattle.jl_defs.specs.Texts as texts;
ghost use Rattle.jl_defs.specs.Words as defs;
ghost use Rattle.jl_defs.specs.Words.{nothing_given, split_word, is_value_word};
ghost use Rattle.jl_top.specs.Words as spec;
ghost use Rattle.jl_top.specs.Words.{AreReadWords, AreWriteWords, settings_of, settings_in, settings_for, read_settings, given_in, HasIriBase, is_equals, split_in, set_built, settings_then, value_settings, settings_behind};

use jl_iri::is_iri;
use jl_model::Text;

/// What the options of `read` say. Streaming order alone is built.
#[derive(Clone, Copy)]
pub struct ReadOptions<'a> {
    pub streaming: bool,
    pub base: Option<&'a [u8]>,
}

/// What some words say as options, and the words behind them.
#[derive(Clone, Copy)]
pub struct Progress<'a> {
    pub options: ReadOptions<'a>,
    pub rest: &'a [Text],
}

/// A word split at its first `=`.
#[derive(Clone, Copy)]
pub struct Split<'a> {
    pub name: &'a [u8],
    pub value: Option<&'a [u8]>,
}

/// Words that set a reading to something, and the word `write`, are a command of the whole program,
/// which says just that.
pub fn law_words()
    ensures read { AreReadWords }
    ensures write { AreWriteWords }
{}

/// Whether the words are `write` alone.
pub fn are_write(words: &[Text]) -> bool
    ensures { result ≡ spec.are_write words.now }
{
    match words {
        [word] => word.bytes() == b"write".as_slice(),
        _ => false,
    }
}

/// What the words say, if they are a command that is built: `read`, with streaming order and perhaps
/// a base.
pub fn read_words(words: &[Text]) -> Option<ReadOptions<'_>>
    ensures settings { settings_for result ≡ settings_of words.now }
    ensures base { IfSome result HasIriBase }
{
    let [command, options @ ..] = words else {
        return None;
    };
    if are_utf8(words) {
        read_command(command.bytes(), options)
    } else {
        None
    }
}

fn are_utf8(words: &[Text]) -> bool
    ensures { result ≡ list_all is_utf8 words.now }
{
    words.iter().all(|word| is_utf8_text(word.bytes()))
}

/// The test of UTF-8, as the definitions have it.
fn is_utf8_text(text: &[u8]) -> bool
    ensures { result ≡ is_utf8 text.now }
{
    has_utf8(text)
}

fn has_utf8(text: &[u8]) -> bool
    ensures { IsTrue result ↔ IsUtf8 text.now }
{
    std::str::from_utf8(text).is_ok()
}

/// The test of IRIs, as the definitions have it.
fn is_iri_text(text: &[u8]) -> bool
    ensures { result ≡ texts.is_iri text.now }
{
    is_iri(text)
}

fn read_command<'a>(command: &[u8], words: &'a [Text]) -> Option<ReadOptions<'a>>
    ensures settings { settings_for result ≡ read_settings command.now words.now }
    ensures base { IfSome result HasIriBase }
{
    if command == b"read".as_slice() {
        read_options(words)
    } else {
        None
    }
}

/// What the words say, all of them as options.
fn read_options(words: &[Text]) -> Option<ReadOptions<'_>>
    ensures settings { settings_for result ≡ settings_in (defs.options words.now nothing_given) }
    ensures base { IfSome result HasIriBase }
{
    let options = ReadOptions {
        streaming: false,
        base: None,
    };
    let mut so_far = Progress {
        options,
        rest: words,
    };
    while let [word, behind @ ..] = so_far.rest {
        match read_option(so_far.options, word, behind) {
            Some(next) => so_far = next,
            None => return None,
        }
    }
    if so_far.options.streaming {
        Some(so_far.options)
    } else {
        None
    }
}

/// What one more option says, whose value stands in its word or in the next one.
fn read_option<'a>(
    options: ReadOptions<'a>,
    word: &'a Text,
    behind: &'a [Text],
) -> Option<Progress<'a>>
    requires { HasIriBase options }
    ensures settings { settings_behind result ≡ settings_in
        (defs.options (word.now ∷ behind.now) (given_in options.entry)) }
    ensures base { IfSome result (λ next. HasIriBase next.options) }
    ensures fewer { IfSome result (λ next. length next.rest.now ≤ length behind.now) }
{
    let Split { name, value } = split_at_equals(word.bytes());
    match value {
        Some(value) => set_then(options, name, value, behind),
        None => read_value(options, name, behind),
    }
}

/// What an option says whose value is the first of these words.
fn read_value<'a>(options: ReadOptions<'a>, name: &[u8], words: &'a [Text]) -> Option<Progress<'a>>
    requires { HasIriBase options }
    ensures settings { settings_behind result ≡ value_settings name.now words.now
        (given_in options.entry) }
    ensures base { IfSome result (λ next. HasIriBase next.options) }
    ensures fewer { IfSome result (λ next. length next.rest.now ≤ length words.now) }
{
    match words {
        [value, behind @ ..] => {
            if is_value(value.bytes()) {
                set_then(options, name, value.bytes(), behind)
            } else {
                None
            }
        }
        [] => None,
    }
}

/// Whether a word may be an option's value: it isn't empty and doesn't look like an option.
fn is_value(word: &[u8]) -> bool
    ensures { result ≡ is_value_word word.now }
{
    match word {
        [first, ..] => *first != b'-',
        [] => false,
    }
}

/// Sets an option, and goes on with these words.
fn set_then<'a>(
    options: ReadOptions<'a>,
    name: &[u8],
    value: &'a [u8],
    rest: &'a [Text],
) -> Option<Progress<'a>>
    requires { HasIriBase options }
    ensures settings { settings_behind result ≡ settings_then
        (set_built name.now value.now (given_in options.entry)) rest.now }
    ensures base { IfSome result (λ next. HasIriBase next.options) }
    ensures rest { IfSome result (λ next. length next.rest.now ≡ length rest.now) }
{
    match set_option(options, name, value) {
        Some(options) => Some(Progress { options, rest }),
        None => None,
    }
}

/// Sets an option that is built and given for the first time.
fn set_option<'a>(options: ReadOptions<'a>, name: &[u8], value: &'a [u8]) -> Option<ReadOptions<'a>>
    requires { HasIriBase options }
    ensures set { option_map given_in result ≡ set_built name.now value.now
        (given_in options.entry) }
    ensures base { IfSome result HasIriBase }
{
    if name == b"--order".as_slice() {
        set_order(options, value)
    } else if name == b"--base".as_slice() {
        set_base(options, value)
    } else {
        None
    }
}

fn set_order<'a>(options: ReadOptions<'a>, value: &[u8]) -> Option<ReadOptions<'a>>
    requires { HasIriBase options }
    ensures set { option_map given_in result ≡ spec.set_order value.now (given_in options.entry) }
    ensures base { IfSome result HasIriBase }
{
    if !options.streaming && value == b"streaming".as_slice() {
        Some(ReadOptions {
            streaming: true,
            base: options.base,
        })
    } else {
        None
    }
}

fn set_base<'a>(options: ReadOptions<'a>, value: &'a [u8]) -> Option<ReadOptions<'a>>
    ensures set { option_map given_in result ≡ spec.set_base value.now (given_in options.entry) }
    ensures base { IfSome result HasIriBase }
{
    match options.base {
        Some(_) => None,
        None => {
            if is_iri_text(value) {
                Some(ReadOptions {
                    streaming: options.streaming,
                    base: Some(value),
                })
            } else {
                None
            }
        }
    }
}

fn split_at_equals(word: &[u8]) -> Split<'_>
    ensures { split_in result ≡ split_word word.now }
{
    match first_equals(word) {
        Some(at) => Split {
            name: &word[..at],
            value: Some(&word[at + 1..]),
        },
        None => Split {
            name: word,
            value: None,
        },
    }
}

fn first_equals(word: &[u8]) -> Option<usize>
    ensures { result ≡ position is_equals word.now }
{
    word.iter().position(|byte| *byte == b'=')
}
