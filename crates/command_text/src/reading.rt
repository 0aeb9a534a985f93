//! Reading a command line.
ghost use Rattle.std.specs.Prelude.{◌≡◌, ◌≤◌, ◌-◌, length, IfOk, IfErr};
ghost use Rattle.eon_model.specs.CommandText.{IsLineOf, IsLine, IsFaultPlace};
ghost use Rattle.command_text.specs.Lines.{demand_at, path_at, back_at, place_at, admit_at, push_at, make_at, routes_at, rest_at, command_at};
ghost use Rattle.command_text.specs.Given.{Gives, Leaves, told_demand};
ghost use Rattle.command_text.specs.Told.{told, told_path, told_backs};

use crate::command::{BackWords, Command, LineFault};
use crate::fields::Fields;
use crate::part::Stuck;
use crate::verb::{Verb, verb_at};
use eon_base::name::Name;
use eon_model::Class;

// What a service is asked with.
#[derive(Drop)]
pub struct DemandWords {
    pub name: Name,
    pub src: Name,
    pub dst: Name,
    pub rate: u32,
    pub class: Class,
}

#[tactic(auto, unfolding(crate::specs::Lines::demand_at))]
fn demand_at(fields: &mut Fields) -> Result<DemandWords, Stuck>
    ensures { Leaves told_demand result fields.new.rest.now (demand_at fields.old.rest.now) }
{
    let name = fields.name()?;
    let src = fields.name()?;
    let dst = fields.name()?;
    let rate = fields.rate()?;
    let class = fields.class()?;
    Ok(DemandWords {
        name,
        src,
        dst,
        rate,
        class,
    })
}

#[tactic(auto, unfolding(crate::specs::Lines::path_at))]
fn path_at<'a>(fields: &mut Fields<'a>) -> Result<BackWords<'a>, Stuck>
    ensures { Leaves told_path result fields.new.rest.now (path_at fields.old.rest.now) }
{
    let fibres = fields.fibres()?;
    let n = fields.centre()?;
    Ok(BackWords { fibres, n })
}

// The backup path, which stands there exactly where the class is protected.
#[tactic(auto, unfolding(crate::specs::Lines::back_at))]
fn back_at<'a>(class: Class, fields: &mut Fields<'a>) -> Result<Option<BackWords<'a>>, Stuck>
    ensures { Leaves told_backs result fields.new.rest.now (back_at class fields.old.rest.now) }
{
    match class {
        Class::Bare => Ok(None),
        Class::Shared | Class::Dual => {
            let back = path_at(fields)?;
            Ok(Some(back))
        }
    }
}

#[tactic(auto, unfolding(crate::specs::Lines::place_at))]
fn place_at<'a>(fields: &mut Fields<'a>) -> Result<Command<'a>, Stuck>
    ensures { Leaves told result fields.new.rest.now (place_at fields.old.rest.now) }
{
    let demand = demand_at(fields)?;
    let work = path_at(fields)?;
    let back = back_at(demand.class, fields)?;
    Ok(Command::Place {
        name: demand.name,
        src: demand.src,
        dst: demand.dst,
        rate: demand.rate,
        class: demand.class,
        work: work.fibres,
        work_n: work.n,
        back,
    })
}

#[tactic(auto, unfolding(crate::specs::Lines::admit_at))]
fn admit_at<'a>(fields: &mut Fields<'a>) -> Result<Command<'a>, Stuck>
    ensures { Leaves told result fields.new.rest.now (admit_at fields.old.rest.now) }
{
    let demand = demand_at(fields)?;
    Ok(Command::Admit {
        name: demand.name,
        src: demand.src,
        dst: demand.dst,
        rate: demand.rate,
        class: demand.class,
    })
}

#[tactic(auto, unfolding(crate::specs::Lines::push_at))]
fn push_at<'a>(fields: &mut Fields<'a>) -> Result<Command<'a>, Stuck>
    ensures { Leaves told result fields.new.rest.now (push_at fields.old.rest.now) }
{
    let name = fields.name()?;
    let n = fields.centre()?;
    Ok(Command::Push { name, n })
}

#[tactic(auto, unfolding(crate::specs::Lines::make_at))]
fn make_at<'a>(fields: &mut Fields<'a>) -> Result<Command<'a>, Stuck>
    ensures { Leaves told result fields.new.rest.now (make_at fields.old.rest.now) }
{
    let name = fields.name()?;
    if fields.is_done() {
        return Ok(Command::Make { name, avoid: None });
    }
    fields.skip(b" avoid")?;
    let fibre = fields.name()?;
    Ok(Command::Make {
        name,
        avoid: Some(fibre),
    })
}

#[tactic(auto, unfolding(crate::specs::Lines::routes_at))]
fn routes_at<'a>(fields: &mut Fields<'a>) -> Result<Command<'a>, Stuck>
    ensures { Leaves told result fields.new.rest.now (routes_at fields.old.rest.now) }
{
    let src = fields.name()?;
    let dst = fields.name()?;
    Ok(Command::Routes { src, dst })
}

// What follows the verb.
#[tactic(auto, unfolding(crate::specs::Lines::rest_at))]
fn rest_at<'a>(verb: Verb, fields: &mut Fields<'a>) -> Result<Command<'a>, Stuck>
    ensures { Leaves told result fields.new.rest.now (rest_at verb fields.old.rest.now) }
{
    match verb {
        Verb::Place => place_at(fields),
        Verb::Admit => admit_at(fields),
        Verb::Release => fields.name().map(|name| Command::Release { name }),
        Verb::Push => push_at(fields),
        Verb::Make => make_at(fields),
        Verb::Finish => fields.name().map(|name| Command::Finish { name }),
        Verb::Back => fields.name().map(|name| Command::Back { name }),
        Verb::Refit => fields.name().map(|name| Command::Refit { name }),
        Verb::Compact => Ok(Command::Compact),
        Verb::Drill => fields.name().map(|group| Command::Drill { group }),
        Verb::Routes => routes_at(fields),
        Verb::Show => fields.name().map(|name| Command::Show { name }),
        Verb::List => Ok(Command::List),
        Verb::Map => fields.name().map(|fibre| Command::Map { fibre }),
        Verb::Stats => Ok(Command::Stats),
        Verb::Report => Ok(Command::Report),
        Verb::Quit => Ok(Command::Quit),
    }
}

// The command of the line; else how many bytes are left from the place on where no line goes on.
fn command_at(line: &[u8]) -> Result<Command<'_>, Stuck>
    ensures { Gives told result (command_at line.now) }
{
    let (verb, rest) = verb_at(line)?;
    let mut fields = Fields { rest };
    let command = rest_at(verb, &mut fields)?;
    if !fields.is_done() {
        return Err(Stuck {
            left: fields.rest.len(),
        });
    }
    Ok(command)
}

/// The command whose line this is, without the byte that ends it. Where there is none, the number of
/// bytes of the longest front with which some line of the grammar begins. A line has at most 4,096 bytes.
pub fn read_command(line: &[u8]) -> Result<Command<'_>, LineFault>
    requires { length line.now ≤ 4096 }
    ensures ok { IfOk result (λ c. IsLineOf line.now (told c)) }
    ensures err { IfErr result (λ f. (¬ IsLine line.now) × IsFaultPlace line.now f.at) }
{
    match command_at(line) {
        Ok(command) => Ok(command),
        Err(stuck) => Err(LineFault {
            at: (line.len() - stuck.left) as u16,
        }),
    }
}
