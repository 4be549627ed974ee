ghost use Rattle.std.specs.Prelude.{◌≡◌, map, option_map, string_bytes};
ghost use Rattle.aip_top.specs.Words.{command_of, command_of_many, command_of_seven, command_of_three, command_of_two, lease_of, make_of, statement_of, time_of, workload_number};
ghost use Rattle.aip_top.specs.Named.{named};

use aip_addr::Name;
use aip_registry::RecordKind;
use aip_text::{read_name, read_number};

/// The two files that a run names.
#[derive(Clone, Copy)]
pub struct RunWords<'a> {
    /// The file of the topology.
    pub topology: &'a String,
    /// The file of the schedule.
    pub schedule: &'a String,
}

/// The file and the domain that a lease names.
#[derive(Clone, Copy)]
pub struct LeaseWords<'a> {
    /// The file of the topology.
    pub topology: &'a String,
    /// The domain's name.
    pub domain: Name,
}

/// The two files that a registry names.
#[derive(Clone, Copy)]
pub struct RegistryWords<'a> {
    /// The file of the topology.
    pub topology: &'a String,
    /// The file of the records.
    pub records: &'a String,
}

/// What a record is to say, by names.
#[derive(Clone, Copy)]
pub struct Statement {
    /// The domain that signs it.
    pub domain: Name,
    /// Whether it is a peering or a binding.
    pub kind: RecordKind,
    /// The domain or the host that it is about.
    pub other: Name,
    /// Its number.
    pub number: u64,
    /// The first tick at which it isn't in force any more.
    pub until: u64,
}

/// The file that a record names, and what it is to say.
#[derive(Clone, Copy)]
pub struct RecordWords<'a> {
    /// The file of the topology.
    pub topology: &'a String,
    /// What the record is to say.
    pub said: Statement,
}

/// The two files that a replay names.
#[derive(Clone, Copy)]
pub struct ReplayWords<'a> {
    /// The file of the topology.
    pub topology: &'a String,
    /// The file of the trace.
    pub trace: &'a String,
}

/// A command.
#[derive(Clone, Copy)]
pub enum Command<'a> {
    /// `run TOPO SCHED`
    Run(RunWords<'a>),
    /// `address TOPO`
    Address(&'a String),
    /// `lease TOPO DOMAIN`
    Lease(LeaseWords<'a>),
    /// `registry TOPO RECORDS`
    Registry(RegistryWords<'a>),
    /// `record TOPO DOMAIN peer DOMAIN NUMBER UNTIL`, or `bind HOST` in place of `peer DOMAIN`
    Record(RecordWords<'a>),
    /// `replay TOPO TRACE`
    Replay(ReplayWords<'a>),
    /// `make N`, with the number of the workload
    Make(u32),
}

// The number of a workload: it is below 2^32.
#[tactic(auto, unfolding(crate::specs::Words::workload_number))]
fn workload_number(word: &[u8]) -> Option<u32>
    ensures { result ≡ workload_number word.now }
{
    let number = read_number(word)?;
    if number < 1 << 32 {
        Some(number as u32)
    } else {
        None
    }
}

fn make_of<'a>(word: &'a String) -> Option<Command<'a>>
    ensures { option_map named result ≡ make_of (string_bytes word.now) }
{
    match workload_number(word.as_bytes()) {
        Some(number) => Some(Command::Make(number)),
        None => None,
    }
}

fn command_of_two<'a>(word: &'a String, second: &'a String) -> Option<Command<'a>>
    ensures { option_map named result ≡ command_of_two (string_bytes word.now) (string_bytes second.now) }
{
    if word.as_str() == "address" {
        Some(Command::Address(second))
    } else if word.as_str() == "make" {
        make_of(second)
    } else {
        None
    }
}

fn lease_of<'a>(topology: &'a String, domain: &'a String) -> Option<Command<'a>>
    ensures { option_map named result ≡ lease_of (string_bytes topology.now) (string_bytes domain.now) }
{
    match Name::read(domain.as_bytes()) {
        Some(domain) => Some(Command::Lease(LeaseWords { topology, domain })),
        None => None,
    }
}

fn command_of_three<'a>(
    word: &'a String,
    topology: &'a String,
    third: &'a String,
) -> Option<Command<'a>>
    ensures { option_map named result
        ≡ command_of_three (string_bytes word.now) (string_bytes topology.now) (string_bytes third.now) }
{
    if word.as_str() == "run" {
        Some(Command::Run(RunWords {
            topology,
            schedule: third,
        }))
    } else if word.as_str() == "lease" {
        lease_of(topology, third)
    } else if word.as_str() == "registry" {
        Some(Command::Registry(RegistryWords {
            topology,
            records: third,
        }))
    } else if word.as_str() == "replay" {
        Some(Command::Replay(ReplayWords {
            topology,
            trace: third,
        }))
    } else {
        None
    }
}

// A number below 2^48.
fn time_of(word: &[u8]) -> Option<u64>
    ensures { result ≡ time_of word.now }
{
    let number = read_number(word)?;
    if number < 1 << 48 { Some(number) } else { None }
}

// What a record is to say.
fn statement_of(
    domain: &[u8],
    kind: &[u8],
    other: &[u8],
    number: &[u8],
    until: &[u8],
) -> Option<Statement>
    ensures { result ≡ statement_of domain.now kind.now other.now number.now until.now }
{
    let domain = read_name(domain)?;
    let kind = RecordKind::named(kind)?;
    let other = read_name(other)?;
    let number = time_of(number)?;
    let until = time_of(until)?;
    Some(Statement {
        domain,
        kind,
        other,
        number,
        until,
    })
}

fn command_of_seven<'a>(
    word: &'a String,
    topology: &'a String,
    domain: &'a String,
    kind: &'a String,
    other: &'a String,
    number: &'a String,
    until: &'a String,
) -> Option<Command<'a>>
    ensures { option_map named result
        ≡ command_of_seven (string_bytes word.now) (string_bytes topology.now) (string_bytes domain.now) (string_bytes kind.now)
        (string_bytes other.now) (string_bytes number.now) (string_bytes until.now) }
{
    if word.as_str() != "record" {
        return None;
    }
    let said = statement_of(
        domain.as_bytes(),
        kind.as_bytes(),
        other.as_bytes(),
        number.as_bytes(),
        until.as_bytes(),
    );
    match said {
        Some(said) => Some(Command::Record(RecordWords { topology, said })),
        None => None,
    }
}

// The command of more than three words.
fn command_of_many(words: &[String]) -> Option<Command<'_>>
    ensures { option_map named result ≡ command_of_many (map string_bytes words.now) }
{
    if words.len() != 7 {
        return None;
    }
    command_of_seven(
        &words[0], &words[1], &words[2], &words[3], &words[4], &words[5], &words[6],
    )
}

/// The command that the words spell, if they spell one.
pub fn command_of(words: &[String]) -> Option<Command<'_>>
    ensures { option_map named result ≡ command_of (map string_bytes words.now) }
{
    match words {
        [word, topology] => command_of_two(word, topology),
        [word, topology, third] => command_of_three(word, topology, third),
        _ => command_of_many(words),
    }
}
