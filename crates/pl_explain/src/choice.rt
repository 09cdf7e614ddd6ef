// The options of the command line.
ghost use Rattle.std.specs.Prelude.{◌≡◌};
ghost use Rattle.std.specs.Str.{bytes_eq};
ghost use Rattle.pl_explain.specs.Options as spec;

/// An option of the command line. The first fills the room that a list of them has.
#[derive(Clone, Copy, Default, PartialEq, Eq)]
pub enum Choice {
    #[default]
    Load,
    Busy,
    Policy,
    Order,
    All,
    DryRun,
    Verbose,
    ConserveMemory,
    Region,
    Undo,
    Verify,
    Install,
    Remove,
    Make,
    Fix,
    Unfix,
    PrintCache,
    Demo,
    Weave,
}

const CHOICES: [Choice; 19] = [
    Choice::Load,
    Choice::Busy,
    Choice::Policy,
    Choice::Order,
    Choice::All,
    Choice::DryRun,
    Choice::Verbose,
    Choice::ConserveMemory,
    Choice::Region,
    Choice::Undo,
    Choice::Verify,
    Choice::Install,
    Choice::Remove,
    Choice::Make,
    Choice::Fix,
    Choice::Unfix,
    Choice::PrintCache,
    Choice::Demo,
    Choice::Weave,
];

fn is_named(choice: Choice, name: &str) -> bool
    ensures { result ≡ bytes_eq (spec.name_of choice) name.now }
{
    choice.name() == name
}

fn has_letter(choice: Choice, letter: u8) -> bool
    ensures { result ≡ spec.is_letter letter (spec.letter_of choice) }
{
    match choice.letter() {
        Some(other) => other == letter,
        None => false,
    }
}

impl Choice {
    /// The option that is spelled so behind two dashes, if one is.
    pub fn by_name(name: &str) -> Option<Choice>
        ensures { result ≡ spec.by_name name.now }
    {
        CHOICES
            .iter()
            .copied()
            .find(|choice| is_named(*choice, name))
    }

    /// The option of a letter, if it is one's.
    pub fn by_letter(letter: u8) -> Option<Choice>
        ensures { result ≡ spec.by_letter letter }
    {
        CHOICES
            .iter()
            .copied()
            .find(|choice| has_letter(*choice, letter))
    }

    /// How the option is spelled behind two dashes.
    fn name(self) -> &'static str
        ensures { result.now ≡ spec.name_of self }
    {
        match self {
            Choice::Load => "load",
            Choice::Busy => "busy",
            Choice::Policy => "policy",
            Choice::Order => "order",
            Choice::All => "all",
            Choice::DryRun => "dry-run",
            Choice::Verbose => "verbose",
            Choice::ConserveMemory => "conserve-memory",
            Choice::Region => "region",
            Choice::Undo => "undo",
            Choice::Verify => "verify",
            Choice::Install => "install",
            Choice::Remove => "remove",
            Choice::Make => "make",
            Choice::Fix => "fix",
            Choice::Unfix => "unfix",
            Choice::PrintCache => "print-cache",
            Choice::Demo => "demo",
            Choice::Weave => "weave",
        }
    }

    /// The letter of the option, if it has one.
    fn letter(self) -> Option<u8>
        ensures { result ≡ spec.letter_of self }
    {
        match self {
            Choice::All => Some(b'a'),
            Choice::DryRun => Some(b'n'),
            Choice::Verbose => Some(b'v'),
            Choice::ConserveMemory => Some(b'm'),
            Choice::Undo => Some(b'u'),
            Choice::Verify => Some(b'y'),
            Choice::PrintCache => Some(b'p'),
            _ => None,
        }
    }

    /// How the option is written: by its letter, if it has one, or by its name behind two dashes.
    pub fn word(self) -> &'static str
        ensures { result.now ≡ spec.word_of self }
    {
        match self {
            Choice::Load => "--load",
            Choice::Busy => "--busy",
            Choice::Policy => "--policy",
            Choice::Order => "--order",
            Choice::All => "-a",
            Choice::DryRun => "-n",
            Choice::Verbose => "-v",
            Choice::ConserveMemory => "-m",
            Choice::Region => "--region",
            Choice::Undo => "-u",
            Choice::Verify => "-y",
            Choice::Install => "--install",
            Choice::Remove => "--remove",
            Choice::Make => "--make",
            Choice::Fix => "--fix",
            Choice::Unfix => "--unfix",
            Choice::PrintCache => "-p",
            Choice::Demo => "--demo",
            Choice::Weave => "--weave",
        }
    }

    /// Whether the option has a value.
    pub fn has_value(self) -> bool {
        match self {
            Choice::All | Choice::DryRun | Choice::Verbose | Choice::ConserveMemory => false,
            Choice::Undo | Choice::PrintCache | Choice::Weave => false,
            _ => true,
        }
    }

    /// Whether the option says what is to be done.
    pub fn is_mode(self) -> bool {
        match self {
            Choice::Busy | Choice::Policy | Choice::Region => false,
            Choice::DryRun | Choice::Verbose | Choice::ConserveMemory => false,
            _ => true,
        }
    }

    /// Whether the other option may stand beside this one, which says what is to be done.
    pub fn goes_with(self, other: Choice) -> bool {
        match self {
            Choice::Load => matches!(other, Choice::Busy | Choice::Policy),
            Choice::Fix => matches!(other, Choice::Policy),
            Choice::Order => matches!(other, Choice::Verbose),
            Choice::All => matches!(
                other,
                Choice::DryRun | Choice::Verbose | Choice::ConserveMemory | Choice::Region
            ),
            Choice::Undo => matches!(other, Choice::All),
            _ => false,
        }
    }
}
