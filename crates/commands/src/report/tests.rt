use crate::report::told;
use crate::status::{FileRef, Status, Target};
use cm_base::{Cause, FormFault, FormPart, FormRule, Items, Place, Refused};
use cm_io::MemorySink;
use module_player::At;
use std::test::*;
use wasm_tree::{ModuleRefused, ModuleRule};

#[test]
fn each_status_has_one_line(rt: HostRuntime) {
    let name = "a\nb\t\u{1f}\u{7f} ~\u{e9}";
    let refused = Refused {
        cause: Cause::NotYet,
        place: Place {
            file: 1,
            line: 12,
            column: 3,
        },
        cycle: Items::new(rt.alloc()),
    };
    let fault = FormFault {
        rule: FormRule::EventLimit,
        part: FormPart::Events,
        index: 1024,
    };
    let unsaved = FormFault {
        rule: FormRule::Scalar,
        part: FormPart::Parameters,
        index: 3,
    };
    let broken = ModuleRefused {
        offset: 33_554_432,
        rule: ModuleRule::CallCycle,
    };
    let rows: [(Status, &str); 15] = [
        (Status::Ok, ""),
        (Status::Usage, "usage\n"),
        (
            Status::Absent(FileRef::Manifest),
            "absent a\\x0ab\\x09\\x1f\\x7f ~\u{e9}\n",
        ),
        (
            Status::ReadFault(FileRef::Source(1)),
            "read fault a\\x0ab\\x09\\x1f\\x7f ~\u{e9}\n",
        ),
        (
            Status::TooBig(FileRef::Manifest, 1_048_577),
            "too big a\\x0ab\\x09\\x1f\\x7f ~\u{e9}\n",
        ),
        (
            Status::Refused(refused),
            "refused NotYet a\\x0ab\\x09\\x1f\\x7f ~\u{e9}:12:3\n",
        ),
        (
            Status::WriteFault(Target::File),
            "write fault a\\x0ab\\x09\\x1f\\x7f ~\u{e9}\n",
        ),
        (
            Status::StateRefused(unsaved),
            "state refused Scalar Parameters 3\n",
        ),
        (
            Status::InputRefused(fault),
            "input refused EventLimit Events 1024\n",
        ),
        (
            Status::ModuleRefused(broken),
            "module refused CallCycle 33554432\n",
        ),
        (Status::StepsSpent(At::Init), "steps spent init\n"),
        (
            Status::Trapped(At::Frame(1_048_575)),
            "trapped frame 1048575\n",
        ),
        (Status::WriteFault(Target::Out), "write fault out\n"),
        (Status::ListenerFault(7), "listener fault 7\n"),
        (Status::NoMemory, "no memory\n"),
    ];
    for (status, line) in rows {
        let mut err = MemorySink::new(
            rt.alloc(),
            Items::new(rt.alloc()),
            Items::new(rt.alloc()),
            0,
        );
        let number = status.number();
        let same = told(rt.alloc(), &mut err, status, name);
        assert!(rt; same.number() == number, "{number}");
        assert!(rt; err.written() == line.as_bytes(), "{number}");
    }
}
