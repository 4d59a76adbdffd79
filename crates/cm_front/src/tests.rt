ghost use Rattle.std.specs.Prelude.{◌≡◌, ◌∷◌, [], ◌<◌, length, IfOk};

use crate::{Sources, Through, front};
use cm_base::{Bytes, Cause, Fail, Items, Place};
use std::alloc::{AllocError, Global};
use std::process::Abort;

const FORM: &str =
    "processor P [[main]] { input stream int in; output stream int out; void main() {\nloop { out <- in; advance(); }\n} }";

fn sources(alloc: Global, first: &str, second: &str) -> Result<Sources, AllocError>
    ensures { IfOk result (λ found. found ≡ first.now ∷ second.now ∷ []) }
{
    let mut found = Items::new(alloc);
    found.push(Bytes::from_slice(alloc, first.as_bytes())?)?;
    found.push(Bytes::from_slice(alloc, second.as_bytes())?)?;
    Ok(found)
}

/// What `front` answers of two short texts.
fn answer(rt: &impl Abort, alloc: Global, first: &str, second: &str) -> Result<Through, Fail> {
    assert!(rt; first.len() < 1000);
    assert!(rt; second.len() < 1000);
    let found = sources(alloc, first, second)?;
    front(alloc, &found)
}

fn has_names(found: &Through, processor: &str, input: &str, output: &str) -> bool {
    found.processor.as_str() == processor
        && found.input.as_str() == input
        && found.output.as_str() == output
}

fn is_refused(fail: &Fail, cause: Cause, place: Place) -> bool {
    match fail {
        Fail::Refused(refused) => {
            refused.cause == cause && refused.place == place && refused.cycle.is_empty()
        }
        Fail::NoMemory => false,
    }
}

#[test]
fn finds_the_form(rt: HostRuntime) {
    let rows = [
        (FORM, "", "P", "in", "out"),
        ("", FORM, "P", "in", "out"),
        (
            "// nothing\n",
            "/* a */processor/**/P9[[main]]{input stream int stream;output stream int _x;void main(){loop{_x<-stream;advance();}}}// b",
            "P9",
            "stream",
            "_x",
        ),
        // The braces of a group leave no trace in the tree.
        (
            "processor Main [[main]] { input { stream int a; } output { stream int b; } void main() { loop { b <- a; advance(); } } }",
            " \r\n\t",
            "Main",
            "a",
            "b",
        ),
    ];
    for (first, second, processor, input, output) in rows {
        let found = match answer(&rt, rt.alloc(), first, second) {
            Ok(found) => has_names(&found, processor, input, output),
            Err(_) => false,
        };
        assert!(rt; found, "{first}{second}");
    }
}

#[test]
fn refuses_the_first_phase(rt: HostRuntime) {
    let rows = [
        // A fault of lexing in any file comes before one of the grammar.
        ("processor", "\nlet c = 1.0f;", Cause::Float, 2, 2, 9),
        ("let c = \"a;\n", "processor", Cause::OpenString, 1, 1, 9),
        ("processor P", "", Cause::Grammar, 1, 1, 12),
        (FORM, "processor Q { 7 }", Cause::Grammar, 2, 1, 15),
        (FORM, "let c = 1.0f + \"a;", Cause::Float, 2, 1, 9),
        ("", "", Cause::NotYet, 1, 1, 1),
    ];
    for (first, second, cause, file, line, column) in rows {
        let refused = match answer(&rt, rt.alloc(), first, second) {
            Ok(_) => false,
            Err(fail) => is_refused(&fail, cause, Place { file, line, column }),
        };
        assert!(rt; refused, "{first}{second}");
    }
}

#[test]
fn refuses_other_forms(rt: HostRuntime) {
    let rows = [
        "graph P [[main]] { input stream int a; output stream int b; }",
        "processor P { input stream int a; output stream int b; void main() { loop { b <- a; advance(); } } }",
        "processor P [[main: 1]] { input stream int a; output stream int b; void main() { loop { b <- a; advance(); } } }",
        "processor P (int n) [[main]] { input stream int a; output stream int b; void main() { loop { b <- a; advance(); } } }",
        "processor P [[main]] { input stream int32 a; output stream int b; void main() { loop { b <- a; advance(); } } }",
        "processor P [[main]] { input value int a; output stream int b; void main() { loop { b <- a; advance(); } } }",
        "processor P [[main]] { input stream int a, c; output stream int b; void main() { loop { b <- a; advance(); } } }",
        "processor P [[main]] { input stream int a; output stream int b; void main() { loop { b <- 7; advance(); } } }",
        "processor P [[main]] { input stream int a; output stream int b; void main() { loop { b <- (a); advance(); } } }",
        "processor P [[main]] { input stream int a; output stream int b; void main() { loop { a <- b; advance(); } } }",
        "processor P [[main]] { input stream int a; output stream int b; void main() { loop { advance(); b <- a; } } }",
        "processor P [[main]] { input stream int a; output stream int b; void main() { loop (2) { b <- a; advance(); } } }",
        "processor P [[main]] { input stream int a; output stream int b; void main() { loop { b <- a; advance(); } } void f() {} }",
        "processor a [[main]] { input stream int a; output stream int b; void main() { loop { b <- a; advance(); } } }",
        "processor P [[main]] { input stream int a; output stream int a; void main() { loop { a <- a; advance(); } } }",
        "processor main [[main]] { input stream int a; output stream int b; void main() { loop { b <- a; advance(); } } }",
        "processor P [[main]] { input stream int main; output stream int b; void main() { loop { b <- main; advance(); } } }",
    ];
    let place = Place {
        file: 1,
        line: 1,
        column: 1,
    };
    for text in rows {
        let refused = match answer(&rt, rt.alloc(), text, "") {
            Ok(_) => false,
            Err(fail) => is_refused(&fail, Cause::NotYet, place),
        };
        assert!(rt; refused, "{text}");
    }
    let two = match answer(&rt, rt.alloc(), FORM, "struct S { int a; }") {
        Ok(_) => false,
        Err(fail) => is_refused(&fail, Cause::NotYet, place),
    };
    assert!(rt; two);
}
