//! What the images of a running world show, and the promise of its device.
//!
//! Definitions and lemmas, no code. The layer above may rely on this: a device that stands for a state
//! (`StandsFor`, which speaks of no log line) and whose log lines are at home (`HasLogHome`) keeps the
//! promise (`KeepsPromise`): each honest image of it is checked, has a tree, and only trees that the mode
//! permits. A change of the volume that is done leaves a world that runs on; one that is cut off leaves a
//! device that keeps the promise, with the call unfinished. `Laws` has each law as one statement.

ghost use Rattle.world_image_laws.specs.ImagesLaws.{BeginsRunning, ChangesDevice, HasSetting, HasTreeOfClose, HasTreeOfRename, HasTreeOfUnlink, KeepsLogHome, KeepsPromiseBetween, KeepsPromiseInChange, KeepsPromiseOfCall, KeepsRoomDropped, KeepsRoomMade, KeepsRoomRemoved, KeepsRoomRenamed, KeepsRoomRenamedOverDirectory, KeepsRoomRenamedOverFile, KeepsRoomUnnamed, KeepsSettings, KeepsStrictImage, KeepsSyncImage, MayBeLostLast, RunsOn, RunsPromised, StaysRunning};

/// A device on which the World runs keeps the promise, and so does each image that shows the World with
/// writes in flight.
pub fn a_running_world_keeps_its_promise()
    ensures running { RunsPromised }
    ensures strict { KeepsStrictImage }
    ensures sync { KeepsSyncImage }
    ensures lost { MayBeLostLast }
{}

/// After a change of the volume that is done the World runs on.
pub fn a_change_is_done()
    ensures device { ChangesDevice }
    ensures log { KeepsLogHome }
    ensures running { RunsOn }
    ensures idle { StaysRunning }
{}

/// A change of the volume that is cut off keeps the promise, and so does the device between two changes.
pub fn a_change_is_cut_off()
    ensures trees { KeepsPromiseInChange }
    ensures call { KeepsPromiseOfCall }
    ensures between { KeepsPromiseBetween }
{}

/// The trees between two changes of one call are that of the call's end, or that before it.
pub fn a_node_without_a_name_is_in_no_tree()
    ensures unlink { HasTreeOfUnlink }
    ensures rename { HasTreeOfRename }
    ensures close { HasTreeOfClose }
{}

/// Changes of names and nodes leave free blocks enough, and no call changes shape or mode.
pub fn the_room_is_kept()
    ensures made { KeepsRoomMade }
    ensures unnamed { KeepsRoomUnnamed }
    ensures renamed { KeepsRoomRenamed }
    ensures over_file { KeepsRoomRenamedOverFile }
    ensures removed { KeepsRoomRemoved }
    ensures over_directory { KeepsRoomRenamedOverDirectory }
    ensures dropped { KeepsRoomDropped }
    ensures settings { KeepsSettings }
{}

/// The World runs on a mounted device.
pub fn a_mounted_device_runs()
    ensures setting { HasSetting }
    ensures running { BeginsRunning }
{}
