//! The line of a word.
ghost use Rattle.std.specs.Prelude.{◌≡◌, ◌+◌, ◌-◌, ◌<◌, ◌≤◌, [], ◌∷◌, ◌++◌, length, codes, IsTrue};
ghost use Rattle.std.specs.Fmt.{decimal, signed_decimal};
ghost use Rattle.eon_model.specs.Commands.{Command as model};
ghost use Rattle.eon_model.specs.CommandText.{command_text, demand_words};
ghost use Rattle.eon_model.specs.Listings.{class_word};
ghost use Rattle.eon_model.specs.LoadGenerator.{service_named, earlier_service, demand_made, centre_made, drill_made, command_chosen, choice_of, drive_command};
ghost use Rattle.eon_model.specs.NetworkText.{is_setup};
ghost use Rattle.eon_model.specs.Spelling.{spaced};

use crate::buffer::LineBuf;
use crate::words::{
    centre_of, choice_of, class_of, earlier_number, number_below, other_node, rate_of,
};
use eon_base::name::Name;
use eon_base::number::{digits, signed};
use eon_model::Class;
use net_setup::NetSetup;

// A space, and the word.
fn put_word(word: &[u8], out: &mut LineBuf)
    requires { length out.old + 1 + length word.now ≤ 4096 }
    ensures { out.new ≡ out.old ++ 32 ∷ word.now }
{
    out.put(b" ");
    out.put(word);
}

// A space, and the name.
fn put_name(name: Name, out: &mut LineBuf)
    requires { length out.old + 33 ≤ 4096 }
    ensures text { out.new ≡ out.old ++ 32 ∷ name }
    ensures short { length out.new ≤ length out.old + 33 }
{
    put_word(name.bytes(), out);
}

// A space, and the number.
fn put_number(number: u64, out: &mut LineBuf)
    requires { length out.old + 21 ≤ 4096 }
    ensures text { out.new ≡ out.old ++ 32 ∷ decimal number }
    ensures short { length out.new ≤ length out.old + 21 }
{
    put_word(digits(number).bytes(), out);
}

// A space, and the centre.
fn put_centre(n: i16, out: &mut LineBuf)
    requires { length out.old + 21 ≤ 4096 }
    ensures { out.new ≡ out.old ++ 32 ∷ signed_decimal n }
{
    put_word(signed(i64::from(n)).bytes(), out);
}

// A space, and the name of the service of this number.
fn put_service(number: u64, out: &mut LineBuf)
    requires { length out.old + 22 ≤ 4096 }
    ensures text { out.new ≡ out.old ++ 32 ∷ service_named number }
    ensures short { length out.new ≤ length out.old + 22 }
{
    out.put(b" s");
    out.put(digits(number).bytes());
}

// A space, and the word of the class.
fn put_class(class: Class, out: &mut LineBuf)
    requires { length out.old + 7 ≤ 4096 }
    ensures { out.new ≡ out.old ++ 32 ∷ class_word class }
{
    match class {
        Class::Bare => out.put(b" bare"),
        Class::Shared => out.put(b" shared"),
        Class::Dual => out.put(b" dual"),
    }
}

// The words of the service that line `i` asks for.
fn put_demand(setup: &NetSetup, word: u64, i: u32, out: &mut LineBuf)
    requires setup { IsTrue (is_setup setup.now) }
    requires room { length out.old + 116 ≤ 4096 }
    ensures { spaced (out.old ∷ demand_words (demand_made setup.now word i)) ≡ out.new }
{
    let nodes = setup.net.nodes();
    let a = number_below(word, nodes);
    let b = other_node(word, a, nodes);
    put_service(u64::from(i), out);
    put_name(setup.net.node_name(a), out);
    put_name(setup.net.node_name(b), out);
    put_number(rate_of(word), out);
    put_class(class_of(word), out);
}

// The verb, and one of the first `i` services.
fn put_earlier(verb: &[u8], word: u64, i: u32, out: &mut LineBuf)
    requires empty { out.old ≡ [] }
    requires short { length verb.now ≤ 7 }
    requires some { 1 ≤ i }
    ensures text { out.new ≡ verb.now ++ 32 ∷ earlier_service word i }
    ensures few { length out.new ≤ 29 }
{
    out.put(verb);
    put_service(earlier_number(word, i), out);
}

// A push of one of the first `i` services to some unit of the band.
fn put_push(setup: &NetSetup, word: u64, i: u32, out: &mut LineBuf)
    requires empty { out.old ≡ [] }
    requires some { 1 ≤ i }
    ensures { out.new ≡ command_text (model.Push (earlier_service word i) (centre_made setup.now word)) }
{
    put_earlier(b"push", word, i, out);
    put_centre(centre_of(word, &setup.band), out);
}

// A drill of some fibre, or `stats` where there is none.
fn put_drill(setup: &NetSetup, word: u64, out: &mut LineBuf)
    requires { out.old ≡ [] }
    ensures { out.new ≡ command_text (drill_made setup.now word) }
{
    let fibres = setup.net.fibres();
    if fibres == 0 {
        out.put(b"stats");
        return;
    }
    out.put(b"drill");
    let fibre = setup.net.fibre(number_below(word, fibres));
    put_name(fibre.name, out);
}

// The line that the word chooses, as line `i`.
fn put_chosen(setup: &NetSetup, word: u64, i: u32, out: &mut LineBuf)
    requires setup { IsTrue (is_setup setup.now) }
    requires empty { out.old ≡ [] }
    requires some { 1 ≤ i }
    ensures { out.new ≡ command_text (command_chosen setup.now word i (choice_of word)) }
{
    match choice_of(word) {
        0..=7 => {
            out.put(b"admit");
            put_demand(setup, word, i, out);
        }
        8 | 9 => put_earlier(b"release", word, i, out),
        10 => put_push(setup, word, i, out),
        11 => put_earlier(b"make", word, i, out),
        12 => put_earlier(b"back", word, i, out),
        13 => put_drill(setup, word, out),
        14 => put_earlier(b"refit", word, i, out),
        _ => out.put(b"compact"),
    }
}

/// Writes line `i` of the load, without the byte that ends it, in place of what the buffer held, and answers how many
/// bytes it has. `word` is word `i`. `before` is word `i - 1` where line `i - 1` was a `push` or a `make` that its word
/// chose, and then this line finishes its service; else it is 0.
pub fn drive_line(setup: &NetSetup, before: u64, word: u64, i: u32, out: &mut LineBuf) -> usize
    requires setup { IsTrue (is_setup setup.now) }
    requires some { 1 ≤ i }
    requires behind { 0 < before → 2 ≤ i }
    ensures line { out.new ≡ command_text (drive_command setup.now before word i) }
    ensures many { result ≡ length out.new }
{
    out.clear();
    if before == 0 {
        put_chosen(setup, word, i, out);
    } else {
        put_earlier(b"finish", before, i - 1, out);
    }
    out.bytes().len()
}
