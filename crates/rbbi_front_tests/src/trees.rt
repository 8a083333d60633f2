//! The statements of one text with each kind of statement.
use rbbi_lex::lex;
use rbbi_text::count_characters;
use rbbi_tree::{Statement, parse};

/// Whether a statement with this number has the parts and places that it must have.
fn is_right(statement: &Statement, number: usize) -> bool {
    match statement {
        Statement::Nothing => number == 3,
        Statement::Control { name, place } => {
            number == 0 && name.as_str() == "chain" && *place == 0
        }
        Statement::Assign { name, place, expr } => {
            number == 1 && name.as_str() == "a" && *place == 9 && expr.items.len() == 2
        }
        Statement::Rule {
            place,
            no_chain_in,
            front,
            slash,
            rest,
            tag,
        } => {
            let is_marked = *no_chain_in && *tag == Some(7);
            let is_split = *slash == Some(23) && rest.is_some() && front.items.len() == 1;
            number == 2 && *place == 19 && is_marked && is_split
        }
    }
}

/// A control, an assignment, a rule and an empty statement.
const TEXT: &str = "!!chain; $a = b|c; ^x* / [y] {7};;";

#[test]
fn statements(rt: HostRuntime) {
    assert!(rt; TEXT.len() < 100);
    let tokens = lex(rt.alloc(), TEXT).expect(&rt, TEXT);
    let found = parse(rt.alloc(), &tokens, count_characters(TEXT)).expect(&rt, TEXT);
    assert!(rt; found.len() == 4);
    for i in 0..found.len() {
        assert!(rt; is_right(found.get(i), i), "statement {i}");
    }
}
