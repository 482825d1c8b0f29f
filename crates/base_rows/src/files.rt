//! That each call succeeds with ample memory, and the real files.
use outside::{DiskFiles, FileFault, Files, MemFiles, MemSink, Sink};
use std::alloc::Global;
use std::fs::Permissions;
use std::os::unix::fs::{PermissionsExt, symlink};
use std::{fs, io};

// What the files hold before a replace and after it.
const OLD: &[u8] = b"the old bytes";

const NEW: &[u8] = b"new";

fn is_read_as(read: &Result<Vec<u8>, FileFault>, bytes: &[u8]) -> bool {
    match read {
        Ok(found) => found.as_slice() == bytes,
        Err(_) => false,
    }
}

// Whether a file in memory is replaced and read, and a sink in memory takes bytes.
fn works_in_memory(alloc: Global) -> bool {
    let mut files = MemFiles::new(alloc, Vec::new(alloc), Vec::new(alloc));
    let mut sink = MemSink::new(alloc, Vec::new(alloc));
    files.replace("T", b"tree") == Ok(())
        && is_read_as(&files.read(alloc, "T"), b"tree")
        && sink.put(b"/ dir\n") == Ok(())
}

#[test]
fn files_and_a_sink_in_memory(rt: HostRuntime) {
    assert!(rt; works_in_memory(rt.alloc()));
}

// A name of this process alone; one of no file where memory is wanting.
fn own_name(rt: &HostRuntime, what: &str) -> String {
    let number = std::process::id(rt.process());
    let name = format!(in rt.alloc(); "/tmp/splitfs-outside-{number}-{what}");
    name.unwrap_or(String::new(rt.alloc()))
}

// Whether a replace is answered so, and a read after it gives these bytes.
fn is_replaced(
    rt: &HostRuntime,
    name: &str,
    bytes: &[u8],
    answer: Result<(), FileFault>,
    read: &[u8],
) -> bool {
    let Ok(own) = rt.clone() else {
        return false;
    };
    let mut files = DiskFiles::new(own);
    files.replace(name, bytes) == answer && is_read_as(&files.read(rt.alloc(), name), read)
}

// Whether a replace fails, and a read after it with this fault.
fn is_refused(rt: &HostRuntime, name: &str, fault: FileFault) -> bool {
    let Ok(own) = rt.clone() else {
        return false;
    };
    let mut files = DiskFiles::new(own);
    let answer = files.replace(name, NEW);
    let read = files.read(rt.alloc(), name);
    answer == Err(FileFault::Failed) && read.err() == Some(fault)
}

// So many bytes, the last one another one.
fn add_long(bytes: &mut Vec<u8>, count: usize) -> io::Result<()> {
    bytes.resize(count, 7)?;
    bytes.push(8)?;
    Ok(())
}

// Whether a file of several pieces is replaced.
fn is_long_replaced(rt: &HostRuntime, name: &str) -> bool {
    let mut bytes = Vec::new(rt.alloc());
    add_long(&mut bytes, 9_999).is_ok() && is_replaced(rt, name, &bytes, Ok(()), &bytes)
}

#[test]
fn a_long_file(rt: HostRuntime) {
    let name = own_name(&rt, "long");
    let is_replaced = is_long_replaced(&rt, &name);
    let is_gone = fs::remove_file(&rt, &name).is_ok();
    assert!(rt; is_replaced && is_gone);
}

const NOWHERE: &str = "/tmp/splitfs-outside-nowhere";

// Whether the folder that is missing is missing still.
fn is_nowhere(rt: &HostRuntime) -> bool {
    match fs::exists(rt, NOWHERE) {
        Ok(exists) => !exists,
        Err(_) => false,
    }
}

// A folder, and a name in a folder that is missing, which is not made.
#[test]
fn names_of_no_file(rt: HostRuntime) {
    assert!(rt; is_refused(&rt, "/tmp", FileFault::Failed));
    assert!(rt;
        is_refused(
            &rt,
            "/tmp/splitfs-outside-nowhere/image",
            FileFault::Missing
        )
    );
    assert!(rt; is_nowhere(&rt));
}

// What stands under a name, and under the name of the new file beside it, before a replace.
#[derive(Clone, Copy)]
enum Scene {
    // Nothing.
    Nothing,
    // A file that its owner alone may read and write, and nothing.
    Old,
    // Such a file, and a new file that an end in between has left.
    LeftBeside,
    // Such a file, and a folder.
    FolderBeside,
    // Such a file, and a link to a device that is full.
    FullBeside,
    // A file that nobody may write, and nothing.
    Locked,
}

fn write_old(rt: &HostRuntime, name: &str, mode: u32) -> io::Result<()> {
    fs::write(rt, name, OLD)?;
    fs::set_permissions(rt, name, Permissions::from_mode(mode))
}

fn set_beside(rt: &HostRuntime, scene: Scene, beside: &str) -> io::Result<()> {
    match scene {
        Scene::LeftBeside => fs::write(rt, beside, OLD),
        Scene::FolderBeside => fs::create_dir(rt, beside),
        Scene::FullBeside => symlink(rt, "/dev/full", beside),
        Scene::Nothing | Scene::Old | Scene::Locked => Ok(()),
    }
}

fn set_scene(rt: &HostRuntime, scene: Scene, name: &str, beside: &str) -> io::Result<()> {
    match scene {
        Scene::Nothing => Ok(()),
        Scene::Locked => write_old(rt, name, 0o400),
        _ => {
            write_old(rt, name, 0o600)?;
            set_beside(rt, scene, beside)
        }
    }
}

fn mode_of(rt: &HostRuntime, name: &str) -> Option<u32> {
    match fs::metadata(rt, name) {
        Ok(found) => Some(found.permissions().mode()),
        Err(_) => None,
    }
}

// Whether a replace is answered so, and leaves the new bytes or the old ones, the permissions that
// were there, and nothing beside, of which a folder that stood there is taken away first.
fn ends_so(rt: &HostRuntime, name: &str, beside: &str, answer: Result<(), FileFault>) -> bool {
    let mode = mode_of(rt, name);
    let bytes = if answer.is_ok() { NEW } else { OLD };
    let is_answered = is_replaced(rt, name, NEW, answer, bytes);
    let _folder = fs::remove_dir(rt, beside);
    let is_clean = fs::symlink_metadata(rt, beside).is_err();
    let is_kept = mode.is_none() || mode_of(rt, name) == mode;
    is_answered && is_clean && is_kept
}

// Each scene, and how a replace is answered there.
const SCENES: [(Scene, Result<(), FileFault>); 6] = [
    (Scene::Nothing, Ok(())),
    (Scene::Old, Ok(())),
    (Scene::LeftBeside, Ok(())),
    (Scene::FolderBeside, Err(FileFault::Failed)),
    (Scene::FullBeside, Err(FileFault::Failed)),
    (Scene::Locked, Err(FileFault::Failed)),
];

// The first scene that ends otherwise, counted from 0.
fn wrong_scene(rt: &HostRuntime, name: &str, beside: &str) -> Option<usize> {
    for (place, (scene, answer)) in SCENES.iter().enumerate() {
        let is_set = set_scene(rt, *scene, name, beside).is_ok();
        let is_so = ends_so(rt, name, beside, *answer);
        if !is_set || !is_so || fs::remove_file(rt, name).is_err() {
            return Some(place);
        }
    }
    None
}

#[test]
fn replaces(rt: HostRuntime) {
    let name = own_name(&rt, "image");
    let beside = own_name(&rt, "image.splitfs-new");
    assert_eq!(rt; wrong_scene(&rt, &name, &beside), None);
}

// Whether the operating system puts a folder on the disk.
fn syncs(rt: &HostRuntime) -> io::Result<()> {
    fs::open(rt, "/tmp")?.sync_all()
}

#[test]
fn a_folder(rt: HostRuntime) {
    assert!(rt; syncs(&rt).is_ok());
}
