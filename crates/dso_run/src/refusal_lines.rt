//! The lines that refusals write (`specs/Status.antt`).
ghost use Rattle.std.specs.Prelude.{◌≡◌, ◌≤◌, ◌++◌, length, codes};
ghost use Rattle.std.specs.Fmt.{decimal};
ghost use Rattle.dso_config.specs.Keys.{key_of};
ghost use Rattle.dso_run.specs.declared.status.ProgramFault.TheVariants as program;
ghost use Rattle.dso_run.specs.declared.status.Refusal.TheVariants as refusal;
ghost use Rattle.dso_run.specs.Status.{HasLine, at_spot, config_text, ended, entry_text, fault_text, kind_text, line_of, name_text, syntax_text};

use crate::ProgramFault;
use crate::status::Refusal;
use arrayvec::ArrayString;
use dso_class::{NameFault, NameKind};
use dso_config::{ConfigFault, Section, Spot};
use dso_syntax::SyntaxFault;
use itoa::Buffer;

/// A line, in a room that each of them fits.
pub(crate) type Line = ArrayString<64>;

/// The one line that a refusal writes. It takes no memory.
pub(crate) fn line_of(refusal: Refusal) -> Line
    requires { HasLine refusal }
    ensures { result.bytes ≡ line_of refusal }
{
    match refusal {
        Refusal::Words => line("dsorun: Usage\n"),
        Refusal::Reading => line("dsorun: ReadFault\n"),
        Refusal::Config(fault) => config_line(fault),
        Refusal::Program(fault) => program_line(fault),
        Refusal::Store => line("dsorun: StoreFault\n"),
        Refusal::InUse => line("dsorun: StoreInUse\n"),
        Refusal::BadStore(place) => bad_store_line(place),
    }
}

/// A line of these bytes.
fn line(text: &str) -> Line
    requires { length text.now ≤ 64 }
    ensures { result.bytes ≡ text.now }
{
    let mut line = Line::new();
    line.push_str(text);
    line
}

/// The line of a fault of the configuration.
fn config_line(fault: ConfigFault) -> Line
    requires { HasLine (refusal.Config fault) }
    ensures { result.bytes ≡ ended (codes "dsorun: BadConfig " ++ config_text fault) }
{
    match fault {
        ConfigFault::NotToml => line("dsorun: BadConfig NotToml\n"),
        ConfigFault::UnknownKey(spot) => spot_line("UnknownKey", spot),
        ConfigFault::WrongKind(spot) => spot_line("WrongKind", spot),
        ConfigFault::OutOfRange(spot) => spot_line("OutOfRange", spot),
        ConfigFault::BadMethodPattern(spot) => spot_line("BadMethodPattern", spot),
        ConfigFault::BadGuard(spot) => spot_line("BadGuard", spot),
        ConfigFault::Twice(spot) => spot_line("Twice", spot),
        ConfigFault::TooLong => line("dsorun: BadConfig TooLong\n"),
        ConfigFault::BadName(spot) => spot_line("BadName", spot),
        ConfigFault::NoMemory(_) => unreachable!(),
    }
}

/// The line of a fault with its section, and with the number of its entry in any but the top.
fn spot_line(name: &str, spot: Spot) -> Line
    requires { length name.now ≤ 16 }
    ensures { result.bytes ≡ ended (codes "dsorun: BadConfig " ++ at_spot name.now spot) }
{
    let mut digits = Buffer::new();
    let mut line = Line::new();
    line.push_str("dsorun: BadConfig ");
    line.push_str(name);
    line.push_str(" ");
    line.push_str(section_key(spot.section));
    if spot.section != Section::Top {
        line.push_str(" ");
        line.push_str(digits.format(spot.entry));
    }
    line.push_str("\n");
    line
}

/// The line of a store that can't be shown, with the place of its gate.
fn bad_store_line(place: u64) -> Line
    ensures { result.bytes ≡ line_of (refusal.BadStore place) }
{
    let mut digits = Buffer::new();
    let mut line = Line::new();
    line.push_str("dsorun: BadStore at ");
    line.push_str(digits.format(place));
    line.push_str("\n");
    line
}

/// The name of a section.
fn section_key(section: Section) -> &'static str
    ensures key { result.now ≡ key_of section }
    ensures short { length result.now ≤ 10 }
{
    section.key()
}

/// The line of a fault of the program.
fn program_line(fault: ProgramFault) -> Line
    requires { HasLine (refusal.Program fault) }
    ensures { result.bytes ≡ ended (codes "dsorun: BadProgram " ++ fault_text fault) }
{
    match fault {
        ProgramFault::Syntax(fault) => syntax_line(fault),
        ProgramFault::Name(fault) => name_line(fault),
    }
}

/// The line of a fault of the grammar.
fn syntax_line(fault: SyntaxFault) -> Line
    requires { HasLine (refusal.Program (program.Syntax fault)) }
    ensures { result.bytes ≡ ended (codes "dsorun: BadProgram " ++ syntax_text fault) }
{
    match fault {
        SyntaxFault::BadByte(place) => numbered_line("BadByte", " at ", place),
        SyntaxFault::BadToken(place) => numbered_line("BadToken", " at ", place),
        SyntaxFault::Unexpected(place) => numbered_line("Unexpected", " at ", place),
        SyntaxFault::NumberTooWide(place) => numbered_line("NumberTooWide", " at ", place),
        SyntaxFault::NestTooDeep(place) => numbered_line("NestTooDeep", " at ", place),
        SyntaxFault::TooLong => line("dsorun: BadProgram TooLong\n"),
        SyntaxFault::NoMemory(_) => unreachable!(),
    }
}

/// The line of a fault of a name.
fn name_line(fault: NameFault) -> Line
    requires { HasLine (refusal.Program (program.Name fault)) }
    ensures { result.bytes ≡ ended (codes "dsorun: BadProgram " ++ name_text fault) }
{
    match fault {
        NameFault::At { kind, line } => numbered_line(name_of(kind), " line ", line as u64),
        NameFault::NoMemory(_) => unreachable!(),
    }
}

/// The name of a fault of a name.
fn name_of(kind: NameKind) -> &'static str
    ensures name { result.now ≡ kind_text kind }
    ensures short { length result.now ≤ 15 }
{
    match kind {
        NameKind::UnknownClass => "UnknownClass",
        NameKind::UnknownMethod => "UnknownMethod",
        NameKind::Twice => "Twice",
        NameKind::WrongArguments => "WrongArguments",
        NameKind::UnknownRoot => "UnknownRoot",
        NameKind::NoAutolock => "NoAutolock",
        NameKind::TooMany(_) => "TooMany",
        NameKind::NoSuchClient => "NoSuchClient",
        NameKind::UnknownVariable => "UnknownVariable",
    }
}

/// The line of a fault with the number of its byte or line.
fn numbered_line(name: &str, between: &str, number: u64) -> Line
    requires name { length name.now ≤ 15 }
    requires between { length between.now ≤ 6 }
    ensures { result.bytes ≡ ended (codes "dsorun: BadProgram " ++ (name.now ++ (between.now ++ decimal number))) }
{
    let mut digits = Buffer::new();
    let mut line = Line::new();
    line.push_str("dsorun: BadProgram ");
    line.push_str(name);
    line.push_str(between);
    line.push_str(digits.format(number));
    line.push_str("\n");
    line
}
