ghost use Rattle.std.specs.Prelude.{◌<◌, ◌≤◌, length};

use crate::{BadKind, Item, LineItem, ScriptReader};
use ceu_base::{Name, Port, Seq, Ty};
use ceu_io::MemSource;
use ceu_tree::Command;
use std::alloc::{AllocError, Global};
use std::test::Fail;

fn ports(alloc: Global, table: &[(&str, Ty)]) -> Result<Seq<Port>, AllocError> {
    let mut ports = Seq::new(alloc);
    for (name, ty) in table {
        let name = Name::new(alloc, name)?;
        ports.push(Port { ty: *ty, name })?;
    }
    Ok(ports)
}

// How a script ends that is read in such pieces.
fn end_of(alloc: Global, script: &[u8], piece: usize, inputs: &Seq<Port>) -> Result<Item, Fail>
    requires piece { 0 < piece }
    requires inputs { length inputs.now ≤ 65535 }
{
    let bytes = script.to_vec(alloc)?;
    let mut source = MemSource::new(bytes, piece, Vec::new(alloc));
    let mut reader = ScriptReader::new();
    for _ in 0..1000 {
        match reader.next(&mut source, inputs)? {
            Item::Command(_) => {}
            item => return Ok(item),
        }
    }
    Ok(Item::Command(Command::Idle(1)))
}

#[test]
fn scripts_end_the_same_in_any_pieces(rt: HostRuntime) -> Result<(), Fail> {
    let inputs = ports(
        rt.alloc(),
        &[
            ("N", Ty::None),
            ("B", Ty::Bool),
            ("U", Ty::U8),
            ("A", Ty::S32),
            ("V", Ty::U64),
        ],
    )?;
    if inputs.items().len() > 65_535 {
        return Ok(());
    }
    let rows: [(&[u8], Item); 27] = [
        (b"", Item::End),
        (b" \t\n\r\n//x\n", Item::End),
        (b"N\nB true\nB false", Item::End),
        (b"N 1", Item::Bad(1, BadKind::Value)),
        (b"N 1 2", Item::Bad(1, BadKind::Form)),
        (b"B 1", Item::Bad(1, BadKind::Value)),
        (b"U 255\nU 256", Item::Bad(2, BadKind::Value)),
        (b"U -1", Item::Bad(1, BadKind::Value)),
        (b"U -0\nU 007\nA -2147483648", Item::End),
        (b"U 0x1", Item::Bad(1, BadKind::Value)),
        (b"U +1", Item::Bad(1, BadKind::Value)),
        (b"A -", Item::Bad(1, BadKind::Value)),
        (b"A", Item::Bad(1, BadKind::Value)),
        (
            b"V 18446744073709551615\nV 18446744073709551616",
            Item::Bad(2, BadKind::Value),
        ),
        (b"\tA\t5 \t// 6", Item::End),
        (b"A 5\r\nA 5\r", Item::Bad(2, BadKind::Value)),
        (b"FOREVER", Item::Bad(1, BadKind::Unknown)),
        (b"Idle", Item::Bad(1, BadKind::Form)),
        (b"\n\nidle 0", Item::Bad(3, BadKind::Value)),
        (
            b"idle\nidle 4294967295\nidle 4294967296",
            Item::Bad(3, BadKind::Value),
        ),
        (b"+1h2min\n+0us\n+9223372036854775807us", Item::End),
        (b"+9223372036854775808us", Item::Bad(1, BadKind::Time)),
        (b"+5", Item::Bad(1, BadKind::Time)),
        (b"+ 5ms", Item::Bad(1, BadKind::Form)),
        (b"+5ms 1", Item::Bad(1, BadKind::Form)),
        // 200 bytes and 201 bytes, their comments among them
        (
            b"// 456789 123456789 123456789 123456789 123456789 123456789 123456789 123456789 123456789 123456789 123456789 123456789 123456789 123456789 123456789 123456789 123456789 123456789 123456789 1234567890\r\n",
            Item::End,
        ),
        (
            b"// 456789 123456789 123456789 123456789 123456789 123456789 123456789 123456789 123456789 123456789 123456789 123456789 123456789 123456789 123456789 123456789 123456789 123456789 123456789 12345678901\n",
            Item::Bad(1, BadKind::Long),
        ),
    ];
    for (script, want) in rows {
        for piece in [1, 2, 7, 4096] {
            assert_eq!(rt;
                end_of(rt.alloc(), script, piece, &inputs)?,
                want,
                "{script:?}"
            );
        }
    }
    Ok(())
}

#[test]
fn lines_are_counted_and_kept(rt: HostRuntime) -> Result<(), Fail> {
    let bytes = b"// x\n A 5 // y\nB".to_vec(rt.alloc())?;
    let mut source = MemSource::new(bytes, 5, Vec::new(rt.alloc()));
    let mut reader = ScriptReader::at(3, 100);
    assert_eq!(rt; reader.next_line(&mut source)?, LineItem::Line);
    assert_eq!(rt; reader.line(), b"A 5".as_slice());
    assert_eq!(rt; (reader.lines(), reader.taken()), (5, 115));
    assert_eq!(rt; reader.next_line(&mut source)?, LineItem::Line);
    assert_eq!(rt; reader.line(), b"B".as_slice());
    assert_eq!(rt; reader.next_line(&mut source)?, LineItem::End);
    assert_eq!(rt; (reader.lines(), reader.taken()), (6, 116));
    Ok(())
}
