// The call over objects in memory.
use crate::{Status, ceu};
use ceu_compile::compile;
use ceu_io::{MemShelf, MemSink, MemSource, Source};
use ceu_react::{Session, State};
use std::alloc::Global;
use std::test::Fail;

const ECHO: &[u8] = b"input int A;\noutput int O;\nvar int x = await A;\nemit O(x);\nescape x;\n";

// Waits for a third `A` in the end.
const TWICE: &[u8] =
    b"input int A; output int O;\nvar int x = await A; emit O(x);\nx = await A; emit O(x);\nawait A;\n";

// The image of a program that pushes 1 and ends.
const ONE: &[u8] =
    b"CEU\x01\x01\0\0\0\0\0\x01\0\x01\0\0\0\0\0\0\0\0\0\0\0\x0c\0\x01\x07\x01\0\0\0\0\0\0\0\x0c\x0e";

// How the objects behave: the most bytes that the script and the output move in a call, the bytes that the output has room for, and the
// calls of the shelf, the script and the output that fail, from 1.
#[derive(Clone, Copy)]
struct Outside {
    pieces: [usize; 2],
    room: usize,
    fails: [u32; 3],
}

const AMPLE: Outside = Outside {
    pieces: [4096, 4096],
    room: 4096,
    fails: [0, 0, 0],
};

// A call on the file `p.ceu`, and what it writes.
fn call(
    alloc: Global,
    words: &[&str],
    text: &[u8],
    script: &[u8],
    outside: &Outside,
) -> Result<(Status, Vec<u8>), Fail> {
    let mut left = None;
    call_left(alloc, words, text, script, outside, &mut left)
}

// The same, and the machine that it leaves.
fn call_left(
    alloc: Global,
    words: &[&str],
    text: &[u8],
    script: &[u8],
    outside: &Outside,
    left: &mut Option<Session>,
) -> Result<(Status, Vec<u8>), Fail> {
    let mut names = Vec::new(alloc);
    for word in words {
        names.push(String::from_str(alloc, word)?)?;
    }
    let mut shelf = MemShelf::new(alloc);
    shelf.put("p.ceu", text)?;
    shelf.fail_on(outside.fails[0])?;
    let mut input = MemSource::new(
        Vec::from_slice(alloc, script)?,
        outside.pieces[0].max(1),
        Vec::from_slice(alloc, &[outside.fails[1]])?,
    );
    let mut out = MemSink::new(
        alloc,
        outside.room,
        outside.pieces[1].max(1),
        Vec::from_slice(alloc, &[outside.fails[2]])?,
    )?;
    let status = ceu(
        alloc,
        names.as_slice(),
        &mut shelf,
        &mut input,
        &mut out,
        left,
    );
    Ok((status, Vec::from_slice(alloc, out.bytes())?))
}

#[test]
fn runs_in_any_pieces(rt: HostRuntime) -> Result<(), Fail> {
    let rows: [(&[u8], &[u8], Status, &[u8]); 8] = [
        (
            b"escape 1;",
            b"",
            Status::Done,
            b"memory 43 turns 1 levels 0\n== escape 1\n",
        ),
        (
            b"",
            b"",
            Status::Done,
            b"memory 43 turns 1 levels 0\n== escape 0\n",
        ),
        (
            ECHO,
            b"A 5",
            Status::Done,
            b"memory 47 turns 1 levels 0\nO 5\n== escape 5\n",
        ),
        (
            ECHO,
            b"A 005\nA 6\n",
            Status::Done,
            b"memory 47 turns 1 levels 0\nO 5\n== escape 5\n",
        ),
        (
            ECHO,
            b"",
            Status::Done,
            b"memory 47 turns 1 levels 0\n== waiting\n",
        ),
        (
            TWICE,
            b"A 1\nA 2\nB 3\nA 4\n",
            Status::Script,
            b"memory 47 turns 1 levels 0\nO 1\nO 2\n== script 3 unknown\n",
        ),
        (
            TWICE,
            b"A 1 2",
            Status::Script,
            b"memory 47 turns 1 levels 0\n== script 1 form\n",
        ),
        (
            b"par do with end",
            b"",
            Status::Refused,
            b"refused B0 1:1\n",
        ),
    ];
    for (text, script, status, printed) in &rows {
        for piece in [1, 2, 7, 4096] {
            let outside = Outside {
                pieces: [piece, 4097 - piece],
                ..AMPLE
            };
            let (answer, written) = call(
                rt.alloc(),
                &["ceu", "run", "p.ceu"],
                text,
                script,
                &outside,
            )?;
            assert_eq!(rt; answer, *status);
            assert_eq!(rt; written.as_slice(), *printed);
        }
    }
    Ok(())
}

// The expected texts are those of an implementation written apart from this one.
#[test]
fn images_of_one_trail_run(rt: HostRuntime) -> Result<(), Fail> {
    let rows: [(&[u8], &[u8], Status, &[u8]); 12] = [
        (
            b"output int O; input int A; input none N; var int n = 3; loop i in [0 -> n] do n = 100; emit O(i); await N; end emit O(7);",
            b"N\nN\nN\nN\nN",
            Status::Done,
            b"memory 67 turns 1 levels 0\nO 0\nO 1\nO 2\nO 3\nO 7\n== escape 0\n",
        ),
        (
            b"output int O; input int A; input none N; do/a do/b escape/a; end emit O(1); end emit O(2);",
            b"",
            Status::Done,
            b"memory 43 turns 1 levels 0\nO 2\n== escape 0\n",
        ),
        (
            b"output int O; input int A; input none N; var int x = do/l loop do var int y = await A; if y > 3 then escape/l y; end end end emit O(x);",
            b"A 1\nA 5",
            Status::Done,
            b"memory 59 turns 1 levels 0\nO 5\n== escape 0\n",
        ),
        (
            b"output int O; input int A; input none N; every N do var int c; c = c + 1; emit O(c); end",
            b"N\nN",
            Status::Done,
            b"memory 55 turns 1 levels 0\nO 1\nO 1\n== waiting\n",
        ),
        (
            b"output int O; input int A; input none N; loop i in ]2147483647 -> 2147483647] do emit O(i); end emit O(1);",
            b"",
            Status::Done,
            b"memory 63 turns 1 levels 0\nO 1\n== escape 0\n",
        ),
        (
            b"output int O; input int A; input none N; var int z; loop i in [0 -> 1 / z] do await N; end",
            b"",
            Status::Fault,
            b"memory 75 turns 1 levels 0\n== fault DivZero 1:71\n",
        ),
        (
            b"output int O; input int A; input none N; var int d = await 10ms; emit O(d); d = await 1ms; emit O(d);",
            b"+10ms\n+1ms",
            Status::Done,
            b"memory 47 turns 1 levels 0\nO 0\nO 0\n== escape 0\n",
        ),
        (
            b"output int O; input int A; input none N; var int d = await 1us; emit O(d);",
            b"+9223372036854775807us",
            Status::Done,
            b"memory 47 turns 1 levels 0\nO 2147483647\n== escape 0\n",
        ),
        (
            b"input int A; output int O;\nevery A do\n  loop i in [1 -> 5] do\n    if i == 2 then continue; else/if i == 4 then break; end\n    emit O(i);\n  end\nend\n",
            b"A 1\nA 2\n",
            Status::Done,
            b"memory 71 turns 1 levels 0\nO 1\nO 3\nO 1\nO 3\n== waiting\n",
        ),
        (
            b"input int A; output int O;\nvar int x = await A;\nif x > 9 then emit O(1); else/if x > 4 then emit O(2); else emit O(3); end\nx = await A until x < 8;\nescape x * x - 3;\n",
            b"A 6\nA 11\nA 7\n",
            Status::Done,
            b"memory 55 turns 1 levels 0\nO 2\n== escape 46\n",
        ),
        (
            b"input int A; output int O;\nvar u8 n = 250; var int m;\nloop/4 do n = n + 1; m = m - 7; emit O((n as int) % 11 + (m >> 1)); end\nemit O(0);\n",
            b"",
            Status::Fault,
            b"memory 68 turns 1 levels 0\nO 5\nO 3\nO -11\nO -13\n== fault LoopLimit 3:1\n",
        ),
        (
            b"input int A; output int O;\nloop do\n  var int x = await A;\n  if x < 0 then break; end\n  var int d = await (x) ms;\n  emit O(d + 100 / (x - 3));\nend\n",
            b"A 1\n+2ms\nA 3\n+1s\n",
            Status::Fault,
            b"memory 75 turns 1 levels 0\nO 950\n== fault DivZero 6:18\n",
        ),
    ];
    for (text, script, status, printed) in &rows {
        let (answer, written) = call(rt.alloc(), &["ceu", "run", "p.ceu"], text, script, &AMPLE)?;
        assert_eq!(rt; answer, *status);
        assert_eq!(rt; written.as_slice(), *printed);
    }
    Ok(())
}

// After a run that waits the machine is there; after a text that is refused none is.
#[test]
fn a_run_leaves_its_machine(rt: HostRuntime) -> Result<(), Fail> {
    let mut left = None;
    let (status, _) = call_left(
        rt.alloc(),
        &["ceu", "run", "p.ceu"],
        TWICE,
        b"A 7\n",
        &AMPLE,
        &mut left,
    )?;
    assert_eq!(rt; status, Status::Done);
    let session = left.ok_or("a run leaves its machine")?;
    assert_eq!(rt; session.state(), State::Waiting);
    let made = compile(rt.alloc(), TWICE)
        .ok()
        .ok_or("a text has an image")?;
    let image = session.image();
    assert_eq!(rt; image.code.items(), made.code.items());
    assert_eq!(rt; image.turns, made.turns);
    assert_eq!(rt; image.gates, made.gates);
    assert_eq!(rt; image.slots, made.slots);
    assert_eq!(rt; image.depth, made.depth);
    assert_eq!(rt; session.memory().len(), 47);
    let mut none = Some(session);
    let (status, _) = call_left(
        rt.alloc(),
        &["ceu", "run", "p.ceu"],
        b"escape y;",
        b"",
        &AMPLE,
        &mut none,
    )?;
    assert_eq!(rt; status, Status::Refused);
    assert_eq!(rt; none.is_none(), true);
    Ok(())
}

#[test]
fn texts_are_checked_and_tidied(rt: HostRuntime) -> Result<(), Fail> {
    let rows: [(&str, &[u8], Status, &[u8]); 16] = [
        ("check", ECHO, Status::Done, b"memory 47 turns 1 levels 0\n"),
        (
            "check",
            b"await FOREVER;",
            Status::Done,
            b"memory 43 turns 1 levels 0\n",
        ),
        (
            "check",
            b"do var int a = 1; end do var s64 b = 2; end escape 0;",
            Status::Done,
            b"memory 51 turns 1 levels 0\n",
        ),
        (
            "check",
            b"escape y; @",
            Status::Refused,
            b"refused L1 1:11\n",
        ),
        (
            "check",
            b"par do nothing; end",
            Status::Refused,
            b"refused G1 1:17\n",
        ),
        ("check", b"do", Status::Refused, b"refused G1 1:3\n"),
        ("check", b"escape y;", Status::Refused, b"refused N1 1:8\n"),
        (
            "check",
            b"var u8 x = 300;",
            Status::Refused,
            b"refused T7 1:12\n",
        ),
        (
            "check",
            b"var int n; var u8 x = n;",
            Status::Refused,
            b"refused T2 1:23\n",
        ),
        (
            "check",
            b"event none e;\nloop do\n  par/or do await e; with emit e; await FOREVER; end\nend\n",
            Status::Refused,
            b"refused B1 2:1\n",
        ),
        ("run", b"escape y; @", Status::Refused, b"refused L1 1:11\n"),
        ("tidy", b"escape   0x1 ;", Status::Done, b"escape 1;\n"),
        ("tidy", b"await 90s;", Status::Done, b"await 1min30s;\n"),
        (
            "tidy",
            b"var&?Tick a=spawn Tick( 1 )in p;",
            Status::Done,
            b"var&? Tick a = spawn Tick(1) in p;\n",
        ),
        ("tidy", b"par", Status::Refused, b"refused G1 1:4\n"),
        (
            "tidy",
            b"do end escape y;",
            Status::Done,
            b"do\nend\nescape y;\n",
        ),
    ];
    for (mode, text, status, printed) in &rows {
        // The script fails at its first call, which isn't made.
        let outside = Outside {
            fails: [0, 1, 0],
            ..AMPLE
        };
        let (answer, written) = call(rt.alloc(), &["ceu", mode, "p.ceu"], text, b"A 5", &outside)?;
        assert_eq!(rt; answer, *status);
        assert_eq!(rt; written.as_slice(), *printed);
    }
    Ok(())
}

#[test]
fn each_object_may_fail(rt: HostRuntime) -> Result<(), Fail> {
    let rows: [(&str, Outside, Status, &[u8]); 11] = [
        (
            "run",
            Outside {
                fails: [1, 0, 0],
                ..AMPLE
            },
            Status::Read,
            b"",
        ),
        (
            "tidy",
            Outside {
                fails: [1, 0, 0],
                ..AMPLE
            },
            Status::Read,
            b"",
        ),
        (
            "run",
            Outside {
                fails: [0, 0, 1],
                ..AMPLE
            },
            Status::Write,
            b"",
        ),
        (
            "run",
            Outside {
                fails: [0, 0, 2],
                ..AMPLE
            },
            Status::Write,
            b"memory 47 turns 1 levels 0\n",
        ),
        (
            "run",
            Outside {
                fails: [0, 0, 4],
                ..AMPLE
            },
            Status::Write,
            b"memory 47 turns 1 levels 0\nO 1\nO 2\n",
        ),
        (
            "run",
            Outside {
                pieces: [4096, 3],
                fails: [0, 0, 9],
                ..AMPLE
            },
            Status::Write,
            b"memory 47 turns 1 levels",
        ),
        (
            "run",
            Outside { room: 27, ..AMPLE },
            Status::Write,
            b"memory 47 turns 1 levels 0\n",
        ),
        (
            "check",
            Outside { room: 26, ..AMPLE },
            Status::Write,
            b"memory 47 turns 1 levels 0",
        ),
        (
            "tidy",
            Outside {
                fails: [0, 0, 2],
                ..AMPLE
            },
            Status::Write,
            b"input int A;\n",
        ),
        (
            "run",
            Outside {
                pieces: [1, 4096],
                fails: [0, 5, 0],
                ..AMPLE
            },
            Status::Read,
            b"memory 47 turns 1 levels 0\nO 1\n",
        ),
        (
            "run",
            Outside {
                pieces: [1, 4096],
                fails: [0, 1, 0],
                ..AMPLE
            },
            Status::Read,
            b"memory 47 turns 1 levels 0\n",
        ),
    ];
    for (mode, outside, status, printed) in &rows {
        let (answer, written) = call(
            rt.alloc(),
            &["ceu", mode, "p.ceu"],
            TWICE,
            b"A 1\nA 2\n",
            outside,
        )?;
        assert_eq!(rt; answer, *status);
        assert_eq!(rt; written.as_slice(), *printed);
    }
    Ok(())
}

#[test]
fn words_and_files(rt: HostRuntime) -> Result<(), Fail> {
    let rows: [(&[&str], Status); 6] = [
        (&["ceu", "fly", "p.ceu"], Status::Words),
        (&["ceu", "run"], Status::Words),
        (&["ceu", "check", "p.ceu", "q.ceu"], Status::Words),
        (&["ceu", "run", "q.ceu"], Status::Absent),
        (&["ceu", "tidy", "q.ceu"], Status::Absent),
        (&["ceu", "check", "p.ceu"], Status::TooLong),
    ];
    let long = vec![in rt.alloc(); b' '; 1_048_577]?;
    for (words, status) in &rows {
        let (answer, written) = call(rt.alloc(), words, long.as_slice(), b"", &AMPLE)?;
        assert_eq!(rt; answer, *status);
        assert_eq!(rt; written.len(), 0);
    }
    Ok(())
}

#[test]
fn images_are_shown(rt: HostRuntime) -> Result<(), Fail> {
    let second =
        b"CEU\x02\x01\0\0\0\0\0\x01\0\x01\0\0\0\0\0\0\0\0\0\0\0\x0c\0\x01\x07\x01\0\0\0\0\0\0\0\x0c\x0e";
    let longer =
        b"CEU\x01\x01\0\0\0\0\0\x01\0\x01\0\0\0\0\0\0\0\0\0\0\0\x0c\0\x01\x07\x01\0\0\0\0\0\0\0\x0c\x0e\0";
    let rows: [(&[u8], u32, Status, &[u8]); 7] = [
        (
            ONE,
            0,
            Status::Done,
            b"memory 43 turns 1 levels 0\n0 push s32 1\n10 setv\n11 end\n",
        ),
        (
            ONE,
            3,
            Status::Write,
            b"memory 43 turns 1 levels 0\n0 push s32 1\n",
        ),
        (&ONE[..37], 0, Status::Refused, b"refused I1 37\n"),
        (&ONE[..37], 1, Status::Write, b""),
        (b"", 0, Status::Refused, b"refused I1 0\n"),
        (second, 0, Status::Refused, b"refused I1 23\n"),
        (longer, 0, Status::Refused, b"refused I1 38\n"),
    ];
    for (bytes, failing, status, printed) in &rows {
        let outside = Outside {
            fails: [0, 1, *failing],
            ..AMPLE
        };
        let (answer, written) = call(
            rt.alloc(),
            &["ceu", "show", "p.ceu"],
            bytes,
            b"A 5",
            &outside,
        )?;
        assert_eq!(rt; answer, *status);
        assert_eq!(rt; written.as_slice(), *printed);
    }
    Ok(())
}

// The output fails long before the script does: what the reader hasn't taken stays there, and the failure behind it.
#[test]
fn a_script_is_left_behind_a_failed_write(rt: HostRuntime) -> Result<(), Fail> {
    let mut script = Vec::new(rt.alloc());
    for _ in 0..2000 {
        script.extend_from_slice(b"A 1\n")?;
    }
    let mut words = Vec::new(rt.alloc());
    for word in ["ceu", "run", "p.ceu"] {
        words.push(String::from_str(rt.alloc(), word)?)?;
    }
    let mut shelf = MemShelf::new(rt.alloc());
    shelf.put("p.ceu", TWICE)?;
    let mut input = MemSource::new(script, 1, Vec::from_slice(rt.alloc(), &[5000])?);
    let mut out = MemSink::new(rt.alloc(), 4096, 4096, Vec::from_slice(rt.alloc(), &[2])?)?;
    let mut left = None;
    let status = ceu(
        rt.alloc(),
        words.as_slice(),
        &mut shelf,
        &mut input,
        &mut out,
        &mut left,
    );
    assert_eq!(rt; status, Status::Write);
    assert_eq!(rt; out.bytes(), b"memory 47 turns 1 levels 0\n".as_slice());
    let mut left = 0usize;
    let mut failed = false;
    let mut byte = [0u8];
    for _ in 0..5000 {
        if !failed {
            match input.read(&mut byte) {
                Ok(_) => left = left.saturating_add(1),
                Err(_) => failed = true,
            }
        }
    }
    assert_eq!(rt; failed, true);
    assert_eq!(rt; left >= 903, true);
    Ok(())
}
