use crate::running::{Limits, run_within};
use crate::status::Status;
use dfs_mem::{MemHost, MemSource};
use std::alloc::Global;
use std::process::Abort;
use std::test::Fail;

// A host without files on which a script was worked to its end.
fn worked(alloc: Global, script: Vec<u8>) -> Result<MemHost, Fail> {
    let mut words = Vec::new(alloc);
    words.push(String::from_str(alloc, "run")?)?;
    let mut host = MemHost::new(alloc, Vec::new(alloc), Vec::new(alloc))?;
    let mut source = MemSource::new(script, Vec::new(alloc), Vec::new(alloc));
    let limits = Limits {
        script_bytes: 16_777_216,
    };
    match run_within(alloc, &words, &mut host, &mut source, limits) {
        Status::Done => Ok(host),
        _ => Err("the run stopped".into()),
    }
}

fn expect(rt: &impl Abort, alloc: Global, script: Vec<u8>, said: &[u8]) -> Result<(), Fail> {
    let host = worked(alloc, script)?;
    assert_eq!(rt; host.said(), said);
    Ok(())
}

// Scripts and what they write.
const SCRIPTS: [(&[u8], &[u8]); 5] = [
    // A plan over the basis, of which the parts come in any order, and a layer that is made after it.
    (
        b"begin a\na mkdir /d 755 1\na publish s\nbegin b s\nb create /d/f 644 2 3 r\nb plan all 3\nb stats\n\
            b part 2\nb plan own 1\nb part 2\nb part 3\nb part 0\nb create /d/g 644 4 5 q\nb part 1\nb part 1\n\
            b stats\nb list /d\nb publish t\nbegin c t\nc stat /d\n",
        b"ok job 1\nok\nok published s 1\nok job 2\nok\nok\nok runs 1 records 1\n\
            ok\nerror busy\nerror done\nerror range\nok\nok\nok merged\nerror noplan\n\
            ok runs 1 records 2\nok 2\nf file 0644 2 3 r\ng file 0644 4 5 q\nok published t 3\nok job 3\nok dir 0755 1 1.1\n",
    ),
    // A job without a record, in as many parts as the settings say.
    (
        b"begin j\nj plan all\nj stats\nj part 1\nj part 0\nj part 2\nj part 3\nj stats\nj part 0\nj publish s\n\
            begin r s\nr list /\n",
        b"ok job 1\nok\nok runs 0 records 0\nok\nok\nok\nok merged\nok runs 0 records 0\nerror noplan\n\
            ok published s 0\nok job 2\nok 0\n",
    ),
    // One key in all layers, and one part.
    (
        b"set buffer 1\nbegin j\nj create /f 644 1 1 r\nj setattr /f 600 2\nj setattr /f 640 3\nj plan own 1\nj part 1\n\
            j part 0\nj stats\nj stat /f\nj publish s\n",
        b"ok\nok job 1\nok\nok\nok\nok\nerror range\nok merged\nok runs 1 records 1\nok file 0640 3 1 r\nok published s 1\n",
    ),
    // A publication gives up a plan under way.
    (
        b"begin j\nj mkdir /d 755 1\nj plan own 2\nj part 0\nj mkdir /e 755 2\nj publish s\nbegin r s\nr list /\nr part 0\n",
        b"ok job 1\nok\nok\nok\nok\nok published s 2\nok job 2\nok 2\nd dir 0755 1 1.1\ne dir 0755 2 1.2\nerror noplan\n",
    ),
    // Scope own leaves the basis, and its deletions hold against it.
    (
        b"begin a\na create /f 644 1 1 r\na publish s\nbegin b s\nb unlink /f\nb plan own 2\nb part 1\nb part 0\nb stats\n\
            b list /\nb publish t\nbegin c s t\nc list /\n",
        b"ok job 1\nok\nok published s 1\nok job 2\nok\nok\nok\nok merged\nok runs 1 records 1\n\
            ok 0\nok published t 1\nok job 3\nok 0\n",
    ),
];

#[test]
fn plans_and_their_parts(rt: HostRuntime) -> Result<(), Fail> {
    for (script, said) in SCRIPTS {
        expect(&rt, rt.alloc(), script.to_vec(rt.alloc())?, said)?;
    }
    Ok(())
}

const ORDERS: [[u8; 4]; 24] = [
    [0, 1, 2, 3],
    [0, 1, 3, 2],
    [0, 2, 1, 3],
    [0, 2, 3, 1],
    [0, 3, 1, 2],
    [0, 3, 2, 1],
    [1, 0, 2, 3],
    [1, 0, 3, 2],
    [1, 2, 0, 3],
    [1, 2, 3, 0],
    [1, 3, 0, 2],
    [1, 3, 2, 0],
    [2, 0, 1, 3],
    [2, 0, 3, 1],
    [2, 1, 0, 3],
    [2, 1, 3, 0],
    [2, 3, 0, 1],
    [2, 3, 1, 0],
    [3, 0, 1, 2],
    [3, 0, 2, 1],
    [3, 1, 0, 2],
    [3, 1, 2, 0],
    [3, 2, 0, 1],
    [3, 2, 1, 0],
];

#[test]
fn the_order_of_the_parts_of_a_plan_does_not_show(rt: HostRuntime) -> Result<(), Fail> {
    let alloc = rt.alloc();
    for [first, second, third, fourth] in ORDERS {
        let script = format!(in alloc;
            "set buffer 2\nbegin j\nj mkdir /d 755 1\nj create /d/a 644 1 0 r\nj create /d/b 644 1 0 r\n\
            j create /d/c 644 1 0 r\nj create /d/e 644 1 0 r\nj create /d/f 644 1 0 r\nj unlink /d/b\n\
            j setattr /d/a 600 2\nj stats\nj plan own 4\nj part {first}\nj part {second}\nj part {third}\n\
            j part {fourth}\nj stats\nj list /d\nj publish s\nbegin r s\nr list /d\n"
        )?;
        expect(
            &rt,
            alloc,
            script.into_bytes(),
            b"ok\nok job 1\nok\nok\nok\nok\nok\nok\nok\nok\nok runs 4 records 8\nok\nok\nok\nok\nok merged\n\
                ok runs 1 records 6\nok 4\na file 0600 2 0 r\nc file 0644 1 0 r\ne file 0644 1 0 r\nf file 0644 1 0 r\n\
                ok published s 6\nok job 2\n\
                ok 4\na file 0600 2 0 r\nc file 0644 1 0 r\ne file 0644 1 0 r\nf file 0644 1 0 r\n",
        )?;
    }
    Ok(())
}

#[test]
fn a_plan_has_256_parts_at_most(rt: HostRuntime) -> Result<(), Fail> {
    let alloc = rt.alloc();
    let mut script =
        b"begin j\nj mkdir /d 755 1\nj create /d/f 644 1 1 r\nj plan all 257\nj plan all 256\nj part 256\n".to_vec(
            alloc,
        )?;
    let mut said = b"ok job 1\nok\nok\nerror syntax\nok\nerror range\n".to_vec(alloc)?;
    for part in 1..256 {
        script.extend_from_slice(format!(in alloc; "j part {part}\n")?.as_bytes())?;
        said.extend_from_slice(b"ok\n")?;
    }
    script.extend_from_slice(b"j part 0\nj stats\nj list /d\n")?;
    said.extend_from_slice(b"ok merged\nok runs 1 records 2\nok 1\nf file 0644 1 1 r\n")?;
    expect(&rt, alloc, script, &said)
}

#[test]
fn a_job_makes_65535_plans_at_most(rt: HostRuntime) -> Result<(), Fail> {
    let alloc = rt.alloc();
    let mut script = b"begin j\n".to_vec(alloc)?;
    let mut said = b"ok job 1\n".to_vec(alloc)?;
    for _ in 0..65_535 {
        script.extend_from_slice(b"j plan own 1\nj part 0\n")?;
        said.extend_from_slice(b"ok\nok merged\n")?;
    }
    script.extend_from_slice(b"j plan own 1\nj part 0\nj mkdir /d 755 1\n")?;
    said.extend_from_slice(b"error full\nerror noplan\nok\n")?;
    expect(&rt, alloc, script, &said)
}

// Two layers of one record each, which a publication merges in so many parts: how long the log then is, and the manifest at its end.
const PARTS: [(u16, usize, &[u8]); 2] = [
    (1, 264, b"\0\0\0\x01\0\0\0\0\0\0\0\xd2\0\0\0\x26"),
    (
        2,
        316,
        b"\0\0\0\x02\0\0\0\0\0\0\0\xb5\0\0\0\x26\0\0\0\0\0\0\0\xfa\0\0\0\x26",
    ),
];

#[test]
fn layers_are_published_in_as_many_parts_as_the_settings_say(rt: HostRuntime) -> Result<(), Fail> {
    let alloc = rt.alloc();
    for (parts, length, manifest) in PARTS {
        let script = format!(in alloc;
            "set buffer 1\nset parts {parts}\nbegin a\na mkdir /x 755 1\na mkdir /y 755 2\na publish s\n"
        )?;
        let host = worked(alloc, script.into_bytes())?;
        let log = host.file(1);
        assert_eq!(rt; log.len(), length);
        assert_eq!(rt; &log[log.len().saturating_sub(manifest.len())..], manifest);
    }
    Ok(())
}

// The directory of a file of a simulation.
fn directory_of(file: u32) -> &'static str {
    match file {
        0..=999 => "ckpt",
        1000..=1989 => "out",
        _ => "log",
    }
}

// A simulation makes its files, and publishes them.
fn simulate(alloc: Global, script: &mut Vec<u8>, said: &mut Vec<u8>) -> Result<(), Fail> {
    script.extend_from_slice(
        b"begin sim\nsim mkdir /ckpt 755 1\nsim mkdir /out 755 2\nsim mkdir /log 755 3\n",
    )?;
    said.extend_from_slice(b"ok job 1\nok\nok\nok\n")?;
    for file in 0..2000 {
        let directory = directory_of(file);
        script.extend_from_slice(format!(in alloc;
            "sim create /{directory}/f{file} 644 {file} 1048576 obj-{file}\n"
        )?.as_bytes())?;
        said.extend_from_slice(b"ok\n")?;
    }
    script.extend_from_slice(b"sim publish raw\n")?;
    said.extend_from_slice(b"ok published raw 2003\n")?;
    Ok(())
}

// A later job takes the checkpoints away, merges what it has, and publishes it.
fn clean(alloc: Global, script: &mut Vec<u8>, said: &mut Vec<u8>) -> Result<(), Fail> {
    script.extend_from_slice(b"begin ana raw\n")?;
    said.extend_from_slice(b"ok job 2\n")?;
    for file in 0..1000 {
        script.extend_from_slice(format!(in alloc; "ana unlink /ckpt/f{file}\n")?.as_bytes())?;
        said.extend_from_slice(b"ok\n")?;
    }
    script.extend_from_slice(
        b"ana rmdir /ckpt\nana plan all\nana part 3\nana part 2\nana part 1\nana part 0\nana stats\nana publish clean\n",
    )?;
    said.extend_from_slice(
        b"ok\nok\nok\nok\nok\nok merged\nok runs 1 records 2003\nok published clean 2003\n",
    )?;
    Ok(())
}

// A reader finds what is left.
fn read(alloc: Global, script: &mut Vec<u8>, said: &mut Vec<u8>) -> Result<(), Fail> {
    script.extend_from_slice(b"begin rd clean\nrd list /\nrd list /log\n")?;
    said.extend_from_slice(b"ok job 3\nok 2\nlog dir 0755 3 1.3\nout dir 0755 2 1.2\nok 10\n")?;
    for file in 1990..2000 {
        said.extend_from_slice(format!(in alloc;
            "f{file} file 0644 {file} 1048576 obj-{file}\n"
        )?.as_bytes())?;
    }
    script.extend_from_slice(b"rd stat /ckpt\n")?;
    said.extend_from_slice(b"error noent\n")?;
    Ok(())
}

#[test]
fn a_workflow_of_three_jobs(rt: HostRuntime) -> Result<(), Fail> {
    let alloc = rt.alloc();
    let mut script = Vec::new(alloc);
    let mut said = Vec::new(alloc);
    simulate(alloc, &mut script, &mut said)?;
    clean(alloc, &mut script, &mut said)?;
    read(alloc, &mut script, &mut said)?;
    expect(&rt, alloc, script, &said)
}
