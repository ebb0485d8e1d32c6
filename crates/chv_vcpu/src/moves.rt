// The position and the fuel.
ghost use Rattle.std.specs.Prelude.{◌≡◌, ◌+◌, ◌<◌, ◌^◌, length};
ghost use Rattle.chv_defs_guest.specs.Instruction.{is_label, jumped_if, label_place, moved, moved_to};

use chv_defs_api::CpuNote;
use chv_defs_base::Text;
use chv_defs_scene::Line;

/// Goes to the next line, for one fuel.
pub(crate) fn move_on(cpu: &mut CpuNote)
    requires fuel { 0 < cpu.old.fuel }
    requires place { cpu.old.pos + 1 < 2 ^ 32 }
    ensures { cpu.new ≡ moved cpu.old }
{
    cpu.pos += 1;
    cpu.fuel -= 1;
}

/// Goes to the line of a label where the jump is made, and else to the next line, for one fuel.
pub(crate) fn jump_if(cpu: &mut CpuNote, made: bool, script: &[Line], to: &Text)
    requires fuel { 0 < cpu.old.fuel }
    requires place { cpu.old.pos + 1 < 2 ^ 32 }
    requires short { length script.now < 2 ^ 32 }
    ensures { cpu.new ≡ jumped_if made script.now to.now cpu.old }
{
    if made {
        cpu.pos = label_place(script, to);
        cpu.fuel -= 1;
    } else {
        move_on(cpu);
    }
}

// The place of a label's line. It looks at each line before that one.
fn label_place(script: &[Line], name: &Text) -> u32
    requires { length script.now < 2 ^ 32 }
    ensures { result ≡ label_place script.now name.now }
{
    for (i, line) in script.iter().enumerate() {
        if is_label(name, line) {
            return i as u32;
        }
    }
    0
}

fn is_label(name: &Text, line: &Line) -> bool
    ensures { result ≡ is_label name.now line.now }
{
    match line {
        Line::At(own) => own == name,
        _ => false,
    }
}
