//! The forms of the arguments after a command's name.

ghost use Rattle.std.specs.Prelude.{◌≡◌, map, option_map};
ghost use Rattle.command_line.specs.Forms.{is_plain, is_among, option_form};
ghost use Rattle.command_line.specs.Forms.{dashed_form, after_dashes, form};
ghost use Rattle.command_line.specs.Code.{form_value, is_bad_form, gives_to, opened_by};

/// The name under which the file name is listed with the options.
pub const FILE: &str = "file";

/// The role of an argument after a command's name.
#[derive(Clone, Copy)]
pub enum Form<'a> {
    /// It gives a value to an option, or the file name.
    Gives { name: &'a str, value: &'a str },
    /// It is an option whose value is the next argument.
    Opens(&'a str),
    /// It isn't allowed.
    Bad,
}

impl<'a> Form<'a> {
    /// Whether the argument isn't allowed.
    pub fn is_bad(self) -> bool
        ensures { result ≡ is_bad_form (form_value self.entry) }
    {
        matches!(self, Form::Bad)
    }

    /// Whether the argument gives a value to this name.
    pub fn gives_to(self, wanted: &str) -> bool
        ensures { result ≡ gives_to (form_value self.entry) wanted.now }
    {
        match self {
            Form::Gives { name, .. } => name == wanted,
            _ => false,
        }
    }

    /// The option whose value is the next argument.
    pub fn opened(self) -> Option<&'a str>
        ensures { option_map (λ n. n.now) result ≡ opened_by (form_value self.entry) }
    {
        match self {
            Form::Opens(name) => Some(name),
            _ => None,
        }
    }
}

/// Whether an argument may be a file name or a value: it isn't empty and doesn't begin with `-`.
fn has_plain_form(word: &str) -> bool
    ensures { result ≡ is_plain word.now }
{
    match word.as_bytes().first() {
        Some(first) => *first != b'-',
        None => false,
    }
}

/// Whether a name is one of the options'.
fn has_name(options: &[&str], name: &str) -> bool
    ensures { result ≡ is_among (map (λ n. n.now) options.now) name.now }
{
    options.contains(&name)
}

/// The form of an argument, from the text after its dashes, `name` or `name=value`.
fn option_form_of<'a>(options: &[&str], rest: &'a str) -> Form<'a>
    ensures { form_value result ≡ option_form (map (λ n. n.now) options.now) rest.entry.now }
{
    match rest.split_once('=') {
        Some((name, value)) if has_name(options, name) && has_plain_form(value) => {
            Form::Gives { name, value }
        }
        None if has_name(options, rest) => Form::Opens(rest),
        _ => Form::Bad,
    }
}

/// The form of an argument that begins with `-`, as `--name` or `--name=value`.
fn dashed_form_of<'a>(options: &[&str], word: &'a str) -> Form<'a>
    ensures { form_value result ≡
        dashed_form (map (λ n. n.now) options.now) (after_dashes word.entry.now) }
{
    match word.strip_prefix("--") {
        Some(rest) => option_form_of(options, rest),
        None => Form::Bad,
    }
}

/// The form of an argument; `waiting` is the option that waits for its value, if any.
#[tactic(auto, unfolding(crate::specs::Forms::form))]
pub fn form_of<'a>(options: &[&str], waiting: Option<&'a str>, word: &'a str) -> Form<'a>
    ensures { form_value result ≡
        form (map (λ n. n.now) options.now) (option_map (λ n. n.now) waiting.entry)
        word.entry.now }
{
    match waiting {
        Some(name) if has_plain_form(word) => Form::Gives { name, value: word },
        Some(_) => Form::Bad,
        None if has_plain_form(word) => Form::Gives {
            name: FILE,
            value: word,
        },
        None => dashed_form_of(options, word),
    }
}
