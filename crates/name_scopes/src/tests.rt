use crate::{Names, Spaces, Table, check_apart};
use cm_base::{Cause, Fail, Name, Place};
use cm_tree::Word;
use std::alloc::{AllocError, Global};
use std::test;

fn place(column: u32) -> Place {
    Place {
        file: 1,
        line: 1,
        column,
    }
}

fn word(alloc: Global, text: &str, column: u32) -> Result<Word, AllocError> {
    Ok(Word {
        place: place(column),
        text: Name::from_str(alloc, text)?,
    })
}

#[test]
fn numbers_names(rt: HostRuntime) -> Result<(), test::Fail> {
    let mut names = Names::new(rt.alloc());
    let texts = ["gain", "out", "gain", "Gain"];
    let numbers = [0, 1, 0, 2];
    for (text, want) in texts.iter().zip(numbers.iter()) {
        let number = names.number(text)?;
        assert!(rt; number == *want, "at {text:?}");
    }
    assert!(rt; names.find("Gain") == Some(2));
    assert!(rt; names.text(1) == Some("out"));
    Ok(())
}

// a, a::b and a::b again
#[test]
fn numbers_namespaces(rt: HostRuntime) -> Result<(), test::Fail> {
    let mut spaces = Spaces::new(rt.alloc());
    let outer = spaces.open(0, "a")?;
    let inner = spaces.open(1, "b")?;
    let again = spaces.open(1, "b")?;
    assert!(rt; outer == 1 && inner == 2 && again == 2);
    assert!(rt; spaces.find(1, "b") == Some(2));
    Ok(())
}

// a = 1; { a = 3; } with what is found in the inner scope and behind it
#[test]
fn finds_the_innermost(rt: HostRuntime) -> Result<(), test::Fail> {
    let mut table = Table::new(rt.alloc(), 1)?;
    table.declare(0, 1)?;
    table.enter()?;
    table.declare(0, 3)?;
    assert!(rt; table.find(0) == Some(3));
    table.leave();
    assert!(rt; table.find(0) == Some(1));
    Ok(())
}

fn refused_at(answer: Result<(), Fail>) -> Option<u32> {
    match answer {
        Err(Fail::Refused(refused)) => {
            if refused.cause == Cause::DuplicateName && refused.cycle.is_empty() {
                Some(refused.place.column)
            } else {
                None
            }
        }
        Err(Fail::NoMemory) => None,
        Ok(()) => Some(0),
    }
}

// The words of each row stand at columns 1, 2, 3 and so on; a row is refused at a column, or is right where that is 0.
#[test]
fn keeps_words_apart(rt: HostRuntime) -> Result<(), test::Fail> {
    let rows: [(&[&str], u32); 6] = [
        (&[], 0),
        (&["a"], 0),
        (&["a", "b", "A", "ab"], 0),
        (&["a", "a"], 2),
        (&["a", "b", "c", "b"], 4),
        (&["", "a", ""], 3),
    ];
    for (texts, want) in rows {
        let mut words = Vec::new(rt.alloc());
        let mut column = 0;
        for text in texts {
            if column < 9 {
                column += 1;
            }
            words.push(word(rt.alloc(), text, column)?)?;
        }
        let found = refused_at(check_apart(rt.alloc(), &words));
        assert!(rt; found == Some(want), "at {texts:?}");
    }
    Ok(())
}
