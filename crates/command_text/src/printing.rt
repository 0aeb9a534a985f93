//! Printing a command as its line.
ghost use Rattle.std.specs.Prelude.{◌≡◌, [], ◌∷◌, ◌++◌, false, length, IsTrue, OnOk, OnErr};
ghost use Rattle.std.specs.Fmt.{decimal, signed_decimal};
ghost use Rattle.std.specs.Option.{option_to_list};
ghost use Rattle.std.specs.List.{flat_map};
ghost use Rattle.eon_model.specs.CommandText.{command_text, is_command, path_words, avoid_words};
ghost use Rattle.eon_model.specs.Spelling.{fibre_list};
ghost use Rattle.eon_model.specs.Listings.{class_word};
ghost use Rattle.line_writer.specs.Sent.{Takes};
ghost use Rattle.line_writer.specs.Words.{behind};
ghost use Rattle.command_text.specs.Told.{told, told_backs};
ghost use Rattle.command_text.specs.Words.{verb_of, rest_words};

use crate::command::{BackWords, Command};
use crate::fibre_names::FibreNames;
use crate::verb::Verb;
use eon_base::name::Name;
use eon_model::Class;
use line_writer::{MemoryText, TextSink, put_centre, put_class, put_name, put_number, put_word};
use std::alloc::AllocError;

fn verb(command: &Command) -> Verb
    ensures { result ≡ verb_of (told command.now) }
{
    match command {
        Command::Place { .. } => Verb::Place,
        Command::Admit { .. } => Verb::Admit,
        Command::Release { .. } => Verb::Release,
        Command::Push { .. } => Verb::Push,
        Command::Make { .. } => Verb::Make,
        Command::Finish { .. } => Verb::Finish,
        Command::Back { .. } => Verb::Back,
        Command::Refit { .. } => Verb::Refit,
        Command::Compact => Verb::Compact,
        Command::Drill { .. } => Verb::Drill,
        Command::Routes { .. } => Verb::Routes,
        Command::Show { .. } => Verb::Show,
        Command::List => Verb::List,
        Command::Map { .. } => Verb::Map,
        Command::Stats => Verb::Stats,
        Command::Report => Verb::Report,
        Command::Quit => Verb::Quit,
    }
}

#[tactic(auto, using(line_writer::proofs::WordLaws::words))]
fn put_names<W: TextSink>(first: &Name, second: &Name, out: &mut W)
    ensures { Takes (W.sent out.old) (W.sent out.new) (behind (first.now ∷ second.now ∷ [])) }
{
    put_name(first, out);
    put_name(second, out);
}

#[tactic(auto, using(line_writer::proofs::WordLaws::words))]
fn put_path<W: TextSink>(fibres: &FibreNames, n: i16, out: &mut W)
    ensures { Takes (W.sent out.old) (W.sent out.new) (behind (fibre_list fibres.now ∷ signed_decimal n ∷ [])) }
{
    put_word(fibres.bytes(), out);
    put_centre(n, out);
}

#[tactic(auto, using(line_writer::proofs::WordLaws::words))]
fn put_back<W: TextSink>(back: &Option<BackWords>, out: &mut W)
    ensures { Takes (W.sent out.old) (W.sent out.new) (behind (flat_map path_words (option_to_list (told_backs back.now)))) }
{
    if let Some(path) = back {
        put_path(&path.fibres, path.n, out);
    }
}

#[tactic(auto, using(line_writer::proofs::WordLaws::words))]
fn put_avoid<W: TextSink>(avoid: &Option<Name>, out: &mut W)
    ensures { Takes (W.sent out.old) (W.sent out.new) (behind (avoid_words avoid.now)) }
{
    if let Some(fibre) = avoid {
        put_word(b"avoid", out);
        put_name(fibre, out);
    }
}

// A rate and a class.
#[tactic(auto, using(line_writer::proofs::WordLaws::words))]
fn put_terms<W: TextSink>(rate: u32, class: Class, out: &mut W)
    ensures { Takes (W.sent out.old) (W.sent out.new) (behind (decimal rate ∷ class_word class ∷ [])) }
{
    put_number(u64::from(rate), out);
    put_class(class, out);
}

#[tactic(auto, using(line_writer::proofs::WordLaws::words))]
fn put_demand<W: TextSink>(
    name: &Name,
    src: &Name,
    dst: &Name,
    rate: u32,
    class: Class,
    out: &mut W,
)
    ensures { Takes (W.sent out.old) (W.sent out.new)
        (behind (name.now ∷ src.now ∷ dst.now ∷ decimal rate ∷ class_word class ∷ [])) }
{
    put_name(name, out);
    put_names(src, dst, out);
    put_terms(rate, class, out);
}

// What follows the verb.
#[tactic(auto, using(line_writer::proofs::WordLaws::words))]
fn put_rest<W: TextSink>(command: &Command, out: &mut W)
    ensures { Takes (W.sent out.old) (W.sent out.new) (behind (rest_words (told command.now))) }
{
    match command {
        Command::Place {
            name,
            src,
            dst,
            rate,
            class,
            work,
            work_n,
            back,
        } => {
            put_demand(name, src, dst, *rate, *class, out);
            put_path(work, *work_n, out);
            put_back(back, out);
        }
        Command::Admit {
            name,
            src,
            dst,
            rate,
            class,
        } => put_demand(name, src, dst, *rate, *class, out),
        Command::Release { name } => put_name(name, out),
        Command::Push { name, n } => {
            put_name(name, out);
            put_centre(*n, out);
        }
        Command::Make { name, avoid } => {
            put_name(name, out);
            put_avoid(avoid, out);
        }
        Command::Finish { name } => put_name(name, out),
        Command::Back { name } => put_name(name, out),
        Command::Refit { name } => put_name(name, out),
        Command::Compact => {}
        Command::Drill { group } => put_name(group, out),
        Command::Routes { src, dst } => put_names(src, dst, out),
        Command::Show { name } => put_name(name, out),
        Command::List => {}
        Command::Map { fibre } => put_name(fibre, out),
        Command::Stats => {}
        Command::Report => {}
        Command::Quit => {}
    }
}

fn put_command<W: TextSink>(command: &Command, out: &mut W)
    ensures { Takes (W.sent out.old) (W.sent out.new) (command_text (told command.now)) }
{
    out.put(verb(command).word());
    put_rest(command, out);
}

// Prints the command, and ends the text.
fn keep_command(command: &Command, text: &mut MemoryText) -> Result<(), AllocError>
    requires going { text.old.stopped ≡ false }
    requires begins { text.old.begins ≡ length text.old.bytes.now.items }
    ensures place { text.new.bytes.ghost_name ≡ text.old.bytes.ghost_name }
    ensures ok { OnOk result (text.new.bytes.now.items ≡ text.old.bytes.now.items ++ command_text (told command.now)) }
    ensures err { OnErr result (text.new.bytes.now.items ≡ text.old.bytes.now.items) }
{
    put_command(command, text);
    text.finish()
}

/// Adds the command's line, without the byte that ends it, at the end. Where memory runs out, the text is
/// as before.
pub fn print_command(command: &Command, out: &mut Vec<u8>) -> Result<(), AllocError>
    requires { IsTrue (is_command (told command.now)) }
    ensures ok { OnOk result (out.new.items ≡ out.old.items ++ command_text (told command.now)) }
    ensures err { OnErr result (out.new.items ≡ out.old.items) }
{
    keep_command(command, &mut MemoryText::new(out))
}
