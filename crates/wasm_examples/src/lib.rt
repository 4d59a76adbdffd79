//! Worked examples of the four definitions of `wasm_tree`: which bytes spell a part of a module, which code
//! has a type, how code reduces, with its exact number of reductions, and what a host's run of a module
//! tells. Each contract states examples whose results were worked out by hand from the Core Specification
//! and docs/MODULE.md, so a change of a definition that moves one of them fails here. The functions do
//! nothing, and nothing is built on them. The codes and modules stand in `specs/`.
#![tactic(auto)]

ghost use Rattle.std.specs.Prelude.{◌≡◌, ℕ, List, [], ◌∷◌, length, Bool, false, None, Some, pos, negsuc};
ghost use Rattle.cm_base.specs.declared.play.Item.TheVariants as item;
ghost use Rattle.cm_base.specs.Parts.{Init, Send, Frame, part_at, at_of, InInit, InFrame};
ghost use Rattle.cm_base.specs.Players.{Ended, Out as PartOut, Trapped as PartTrapped, NotBegun, PartEnds, PartSpent};
ghost use Rattle.wasm_tree.specs.declared.instr.Instr.{Instr};
ghost use Rattle.wasm_tree.specs.declared.instr.Instr.TheVariants as instr;
ghost use Rattle.wasm_tree.specs.declared.op.LoadOp.TheVariants as load;
ghost use Rattle.wasm_tree.specs.declared.op.BinaryOp.TheVariants as binary;
ghost use Rattle.wasm_tree.specs.declared.module.ValType.{ValType};
ghost use Rattle.wasm_tree.specs.declared.module.Module.{Module};
ghost use Rattle.wasm_tree.specs.Spelled.{Unsigned, Signed, Instruction, Body, Spelled, header};
ghost use Rattle.wasm_tree.specs.Control.{IsClosed, after_instruction};
ghost use Rattle.wasm_tree.specs.Reduce.{Trapped};
ghost use Rattle.wasm_tree.specs.Cells.{cells_of};
ghost use Rattle.wasm_tree.specs.Section.{Spelled_section, AreWithin};
ghost use Rattle.wasm_tree.specs.Valid.{Valid};
ghost use Rattle.wasm_tree.specs.HostRun.{host_tasks};
ghost use Rattle.wasm_tree.specs.Stopped.{Resumes};
ghost use Rattle.wasm_tree.specs.Refusal.{BreaksAt, IsRefusal, InTypes, InFunctions, InMemories, InExports, InCodes, InSegments, InCmajor, InSecondCmajor, Missing};
ghost use Rattle.wasm_tree.specs.declared.failure.ModuleRule.TheVariants as rule;
ghost use Rattle.wasm_examples.specs.Rules.{quiet_section, quiet_module, no_such_type, no_such_label, many_pages, number_left, calls_itself, byte_past_end, no_import, no_frame, other_export, two_sections, empty_section, two_results, two_results_bytes, bare_slot};
ghost use Rattle.wasm_examples.specs.Bytes.{nested_code, stray_else, second_else, empty_module, type_module, type_bytes, version_two, next_body, body_with};
ghost use Rattle.wasm_examples.specs.Runs.{run_of, EndsIn, block_code, loop_code, next_function, call_code, table_code, nested_run, binary_code, least, memory_code, load_code};
ghost use Rattle.wasm_examples.specs.Types.{HasType, sum_code, choice_code, add_code};
ghost use Rattle.wasm_examples.specs.Hosts.{run_of_event, part_of_event, add_event, pass_event, divide_event, event_module, pageless_module, three_slots, three_slots_bytes, run_of_frames, run_of_mix, saved_level, event_script};
ghost use Rattle.wasm_examples.specs.Stops.{both_scripts, stopped_sum, snapshot_of_sum, resumed_sum, whole_sum, sum_module, sum_slots, first_script, second_script, run_of_ping};

/// Numbers (5.2.2): 44100 in three bytes or in five, no number of 32 bits in six bytes, none in a byte that
/// asks for another, and -1 and -65 as signed numbers.
pub fn numbers_are_spelled()
    ensures three_bytes { Unsigned 32 44100 (0xC4 ∷ 0xD8 ∷ 0x02 ∷ []) }
    ensures five_bytes { Unsigned 32 44100 (0xC4 ∷ 0xD8 ∷ 0x82 ∷ 0x80 ∷ 0x00 ∷ []) }
    ensures not_six { (n a b c d e f : ℕ) → Unsigned 32 n (a ∷ b ∷ c ∷ d ∷ e ∷ f ∷ []) → ⊥ }
    ensures not_open { (n : ℕ) → Unsigned 32 n (0x80 ∷ []) → ⊥ }
    ensures minus_one { Signed 32 (negsuc 0) (0x7F ∷ []) }
    ensures minus_65 { Signed 32 (negsuc 64) (0xBF ∷ 0x7F ∷ []) }
{}

/// Instructions and modules (5.4, 5.5): a load with its alignment and offset, sequences that are closed, an
/// `else` that ends no first arm, a loop inside 4,095 others and none inside 4,096, a function's body, none
/// of 65,537 locals, the header alone and with a section of types, and the header of another version.
pub fn instructions_are_spelled()
    ensures load { Instruction (instr.Load load.I32 (record { align = 2; offset = 4 })) (0x28 ∷ 0x02 ∷ 0x04 ∷ []) }
    ensures closed { IsClosed nested_code }
    ensures stray { IsClosed stray_else → ⊥ }
    ensures second { IsClosed second_else → ⊥ }
    ensures deep { (arms : List Bool) → length arms ≡ 4096 → after_instruction arms (instr.Loop None) ≡ Some (false ∷ arms) }
    ensures too_deep { (arms : List Bool) → length arms ≡ 4097 → after_instruction arms (instr.Loop None) ≡ None }
    ensures body { Body next_body (0x09 ∷ 0x01 ∷ 0x02 ∷ 0x7E ∷ 0x20 ∷ 0x00 ∷ 0x41 ∷ 0x01 ∷ 0x6A ∷ 0x0B ∷ []) }
    ensures many_locals { (code : List Instr) (bytes : List ℕ) → Body (body_with 65536 1 code) bytes → ⊥ }
    ensures empty { Spelled header empty_module }
    ensures types { Spelled type_bytes type_module }
    ensures other_version { (m : Module) → Spelled version_two m → ⊥ }
{}

/// Control (4.4.5): a branch out of a block in 4 reductions, a loop of three turns in 26, a call of a
/// function in 6, and a branch by a table, where a number past its end takes the last label. A run holds the
/// locals and operands of the function that runs and of those that wait, and the constants that come next.
pub fn control_reduces()
    ensures block { EndsIn 4 [] block_code [] (0 ∷ []) [] (7 ∷ []) [] }
    ensures turns { EndsIn 26 [] loop_code (3 ∷ []) (0 ∷ []) [] (3 ∷ []) [] }
    ensures function { EndsIn 6 (next_function ∷ []) call_code [] (0 ∷ []) [] (42 ∷ []) [] }
    ensures first_label { EndsIn 6 [] (table_code (pos 0)) [] (4 ∷ []) [] (9 ∷ []) [] }
    ensures last_label { EndsIn 4 [] (table_code (pos 5)) [] (4 ∷ []) [] (4 ∷ []) [] }
    ensures unreachable { run_of [] (instr.Unreachable ∷ instr.End ∷ []) [] [] [] 1 ≡ Trapped }
    ensures cells { cells_of nested_run ≡ 9 }
{}

/// Operators and memory (4.3.2, 4.4.4): what traps, the remainder of the least number by -1, and a word that
/// is stored across a word's boundary and loaded again.
pub fn operators_reduce()
    ensures by_zero { run_of [] (binary_code binary.DivSigned (pos 7) (pos 0)) [] (5 ∷ []) [] 1 ≡ Trapped }
    ensures overflow { run_of [] (binary_code binary.DivSigned least (negsuc 0)) [] (5 ∷ []) [] 1 ≡ Trapped }
    ensures no_remainder { EndsIn 3 [] (binary_code binary.RemSigned least (negsuc 0)) [] (5 ∷ []) [] (0 ∷ []) [] }
    ensures toward_zero { EndsIn 3 [] (binary_code binary.DivSigned (negsuc 6) (pos 2)) [] (5 ∷ []) [] (0xFFFFFFFD ∷ []) [] }
    ensures memory { EndsIn 6 [] memory_code [] (0 ∷ 0 ∷ []) (1 ∷ 1 ∷ 1 ∷ 1 ∷ 1 ∷ 1 ∷ 1 ∷ 1 ∷ []) (0x81828384 ∷ 0xFFFFFF81 ∷ []) (1 ∷ 1 ∷ 0x84 ∷ 0x83 ∷ 0x82 ∷ 0x81 ∷ 1 ∷ 1 ∷ []) }
    ensures past_the_end { run_of [] (load_code (pos 1)) [] (5 ∷ []) (1 ∷ 2 ∷ 3 ∷ 4 ∷ []) 1 ≡ Trapped }
{}

/// Types (3.3): two constants that are added and dropped, an `if` with a result, and an addition that has no
/// operands.
pub fn code_has_types()
    ensures sum { HasType sum_code [] [] }
    ensures choice { HasType choice_code [] [] }
    ensures no_operands { (after : List ValType) → HasType add_code [] after → ⊥ }
{}

/// Modules (3.4.10): one that adds the number of an event to a sum is valid, its section `cmajor` says what
/// its slots are, and without a page of memory it isn't valid. A slot without scalars needs no memory.
pub fn modules_are_valid()
    ensures section { Spelled_section three_slots three_slots_bytes }
    ensures adds { Valid (event_module add_event) three_slots }
    ensures no_room { Valid pageless_module three_slots → ⊥ }
    ensures bare { AreWithin 0 (bare_slot 4) }
{}

/// Rules of refusal: the smallest valid module, changes of it that break one rule each, with the part that breaks
/// it, and the byte at which a module is refused.
pub fn rules_are_broken()
    ensures valid { Valid quiet_module quiet_section }
    ensures index_of_type { BreaksAt no_such_type rule.Index InFunctions }
    ensures index_of_label { BreaksAt no_such_label rule.Index InCodes }
    ensures limit { BreaksAt many_pages rule.Limit InMemories }
    ensures typing { BreaksAt number_left rule.Typing InCodes }
    ensures call_cycle { BreaksAt calls_itself rule.CallCycle InCodes }
    ensures segment { BreaksAt byte_past_end rule.Segment InSegments }
    ensures no_import { BreaksAt no_import rule.Interface Missing }
    ensures no_export { BreaksAt no_frame rule.Interface Missing }
    ensures other_export { BreaksAt other_export rule.Interface InExports }
    ensures second_section { BreaksAt two_sections rule.Cmajor InSecondCmajor }
    ensures empty_section { BreaksAt empty_section rule.Cmajor InCmajor }
    ensures at_types { IsRefusal (record { offset = 8; rule = rule.Typing }) two_results two_results_bytes }
    ensures at_end { IsRefusal (record { offset = 8; rule = rule.Limit }) empty_module header }
{}

/// Runs of a host over two frames, with an event at the second: what is told, in order, and where the run
/// ends. The addition of the event's number takes five reductions, so with four its part is spent, the part
/// before it ends and the one after it isn't begun; a division by the number traps where it is 0. A call of `frames` tells two frames, and a second call the third.
pub fn hosts_run()
    ensures adds { run_of_event add_event (pos 5) 5 ≡ record { trace = item.Frame 0 (pos 0 ∷ []) ∷ item.Frame 1 (pos 5 ∷ []) ∷ []; ending = Ended } }
    ensures passes { run_of_event pass_event (pos 5) 4 ≡ record { trace = item.Frame 0 (pos 0 ∷ []) ∷ item.Event 1 2 (pos 5 ∷ []) ∷ item.Frame 1 (pos 0 ∷ []) ∷ []; ending = Ended } }
    ensures spends { run_of_event add_event (pos 5) 4 ≡ record { trace = item.Frame 0 (pos 0 ∷ []) ∷ []; ending = PartOut (Send 1 0 (pos 5 ∷ []) ([] ∷ [] ∷ [] ∷ [])) } }
    ensures part_ends { part_of_event add_event (pos 5) 4 1 ≡ PartEnds }
    ensures part_spends { part_of_event add_event (pos 5) 4 2 ≡ PartSpent }
    ensures part_waits { part_of_event add_event (pos 5) 4 3 ≡ NotBegun }
    ensures traps { run_of_event divide_event (pos 0) 4 ≡ record { trace = item.Frame 0 (pos 0 ∷ []) ∷ []; ending = PartTrapped (Send 1 0 (pos 0 ∷ []) ([] ∷ [] ∷ [] ∷ [])) } }
    ensures blocks { run_of_frames 5 ≡ record { trace = item.Frame 0 (pos 7 ∷ []) ∷ item.Frame 1 (pos 8 ∷ []) ∷ item.Frame 2 (pos 7 ∷ []) ∷ []; ending = Ended } }
    ensures blocks_spend { run_of_frames 4 ≡ record { trace = item.Frame 0 (pos 7 ∷ []) ∷ []; ending = PartOut (Frame 1 ([] ∷ [])) } }
{}

/// Runs of a host with a stream input, and a value input that is a parameter: it starts with the range's
/// number or with the one that is saved, and is set before the frame that the script names. Where the stream
/// ends, 0 follows.
pub fn hosts_set_inputs()
    ensures sets { run_of_mix [] ≡ record { trace = item.Frame 0 (negsuc 7 ∷ []) ∷ item.Frame 1 (pos 23 ∷ []) ∷ item.Frame 2 (pos 3 ∷ []) ∷ []; ending = Ended } }
    ensures starts { run_of_mix saved_level ≡ record { trace = item.Frame 0 (negsuc 4 ∷ []) ∷ item.Frame 1 (pos 23 ∷ []) ∷ item.Frame 2 (pos 3 ∷ []) ∷ []; ending = Ended } }
{}

/// Runs that are stopped and resumed: two scripts joined, with 0 for the first stream's missing value; the run
/// of a module that sums its inputs over the first; its snapshot, without the fixed global; the run that is
/// resumed from it over the second; and both traces joined, which are the trace of the run over both scripts.
pub fn hosts_resume()
    ensures joins { both_scripts ≡ record { frames = 5; streams = (pos 1 ∷ pos 2 ∷ pos 0 ∷ pos 10 ∷ []) ∷ [] ∷ [] ∷ []; values = record { frame = 1; endpoint = 1; value = pos 3 ∷ [] } ∷ record { frame = 4; endpoint = 1; value = pos 5 ∷ [] } ∷ []; events = [] } }
    ensures stops { stopped_sum.trace ≡ item.Frame 0 (pos 1 ∷ []) ∷ item.Frame 1 (pos 6 ∷ []) ∷ item.Frame 2 (pos 9 ∷ []) ∷ [] }
    ensures globals { snapshot_of_sum.globals ≡ pos 9 ∷ [] }
    ensures current { snapshot_of_sum.current ≡ pos 3 ∷ [] }
    ensures resumes { resumed_sum ≡ record { trace = item.Frame 0 (pos 22 ∷ []) ∷ item.Frame 1 (pos 27 ∷ []) ∷ []; ending = Ended } }
    ensures whole { Resumes sum_module sum_slots [] first_script second_script 9 whole_sum }
{}

/// A call of `frames` that is exported as `emit`: the first reduction asks the host with the count of frames,
/// here the number of an event output, and the second ends the call, which traps for want of a mark.
pub fn hosts_are_asked_at_once()
    ensures nothing { run_of_ping 0 ≡ record { trace = []; ending = PartOut Init } }
    ensures asks { run_of_ping 1 ≡ record { trace = item.Event 0 1 (pos 0 ∷ []) ∷ []; ending = PartOut (Frame 0 ([] ∷ [] ∷ [])) } }
    ensures traps { run_of_ping 2 ≡ record { trace = item.Event 0 1 (pos 0 ∷ []) ∷ []; ending = PartTrapped (Frame 0 ([] ∷ [] ∷ [])) } }
{}

/// Parts by number and by name: `init` and frame 0 come before the event at frame 1, which belongs to that frame.
pub fn parts_have_names()
    ensures third { part_at 2 (host_tasks three_slots [] (event_script (pos 5)) 2) ≡ Some (Send 1 0 (pos 5 ∷ []) ([] ∷ [] ∷ [] ∷ [])) }
    ensures name { at_of (Send 1 0 (pos 5 ∷ []) ([] ∷ [] ∷ [] ∷ [])) ≡ InFrame 1 }
    ensures first { at_of Init ≡ InInit }
{}
