// The thread that reads pictures.
ghost use Rattle.std.specs.Prelude.{◌≡◌, [], None, Some, IfSome, IsTrue};
ghost use Rattle.picture_reader.specs.Kept.{AreOpen};
ghost use Rattle.picture_reader.specs.Paths.{is_path};
ghost use Rattle.picture_reader.specs.Pictures.{IsTold};

use crate::ends::Ends;
use covers::{PictureAnswer, PictureAsk};
use crossbeam_channel::{Receiver, RecvTimeoutError, Sender};
use mio_clients::{
    CLIENT_LIMIT, Clients, Listener, PictureLine, PictureOrder, PictureRead, PictureTold, Ready,
    Stream,
};
use picture_reader::{OpenPictures, answer_picture};
use song_files::Folder;
use stage_workers::Wake;
use std::alloc::{AllocError, Global};
use std::sync::Wait;
use std::time::{Clock, Duration};

// How many milliseconds no picture is asked for until all are closed: so no file stays open whose client is gone.
const IDLE: u64 = 10_000;

/// What the thread of the pictures is given: what is to be read, and where what was read goes.
#[derive(Drop)]
pub(crate) struct PictureEnds {
    pub(crate) orders: Receiver<PictureOrder>,
    pub(crate) answers: Sender<PictureRead>,
}

/// Gives the clients of a life the way to a thread of its own, whose ends it answers. All answers that may be out have room, so that none
/// is lost for want of memory, and a client waits for each.
pub(crate) fn open_line<T: Stream, L: Listener<T>, Y: Ready<T>>(
    alloc: Global,
    clients: &mut Clients<T, L, Y>,
) -> Result<PictureEnds, AllocError> {
    let (sender, orders) = crossbeam_channel::unbounded(alloc)?;
    let (answers, receiver) = crossbeam_channel::bounded(alloc, CLIENT_LIMIT)?;
    clients.set_pictures(PictureLine::new(alloc, sender, receiver)?);
    Ok(PictureEnds { orders, answers })
}

// The next order; none once nobody is left who orders. Where it lets wait, all pictures are closed meanwhile.
fn next_order<S: Drop, R: Wait + Clock>(
    rt: &R,
    orders: &Receiver<PictureOrder>,
    pictures: &mut Option<OpenPictures<S>>,
) -> Option<PictureOrder> {
    if pictures.is_some() {
        match orders.recv_timeout(rt, Duration::from_millis(IDLE)) {
            Ok(order) => return Some(order),
            Err(RecvTimeoutError::Disconnected) => return None,
            Err(RecvTimeoutError::Timeout) => *pictures = None,
        }
    }
    orders.recv(rt).ok()
}

// Where none is open, takes the memory for those that will be; none again where there isn't enough.
fn take_room<S: Drop>(alloc: Global, pictures: &mut Option<OpenPictures<S>>)
    ensures open { IfSome pictures.old (λ opened. pictures.new ≡ Some opened) }
    ensures none { pictures.old ≡ None → IfSome pictures.new (λ opened. opened ≡ []) }
{
    if pictures.is_none() {
        *pictures = OpenPictures::new(alloc).ok();
    }
}

// What is answered to a question about a picture: what stands in the folder's files. Without memory it counts as one that can't be read.
fn answer_for<F: Folder>(
    alloc: Global,
    folder: &mut F,
    pictures: &mut Option<OpenPictures<F::File>>,
    client: u64,
    ask: &PictureAsk,
) -> PictureAnswer
    ensures told { F.honest folder.old → IfSome pictures.old (AreOpen F.File.bytes F.File.honest (F.files folder.old)) →
        IsTrue (is_path ask.now.kind ask.now.uri) → IsTold (F.files folder.old) ask.now result }
    ensures kept { F.honest folder.old → IfSome pictures.old (AreOpen F.File.bytes F.File.honest (F.files folder.old)) →
        IfSome pictures.new (AreOpen F.File.bytes F.File.honest (F.files folder.new)) }
{
    take_room(alloc, pictures);
    match pictures {
        Some(open) => match answer_picture(alloc, folder, open, client, ask) {
            Ok(answer) => answer,
            Err(_) => PictureAnswer::Unreadable,
        },
        None => PictureAnswer::Unreadable,
    }
}

// What is told to the client that asks.
fn told_of<F: Folder>(
    alloc: Global,
    folder: &mut F,
    pictures: &mut Option<OpenPictures<F::File>>,
    order: PictureOrder,
) -> PictureRead
    ensures asked { (result.client ≡ order.client) × (result.told.ask ≡ order.ask) }
    ensures told { F.honest folder.old → IfSome pictures.old (AreOpen F.File.bytes F.File.honest (F.files folder.old)) →
        IsTrue (is_path order.ask.kind order.ask.uri) → IsTold (F.files folder.old) order.ask result.told.answer }
    ensures kept { F.honest folder.old → IfSome pictures.old (AreOpen F.File.bytes F.File.honest (F.files folder.old)) →
        IfSome pictures.new (AreOpen F.File.bytes F.File.honest (F.files folder.new)) }
{
    let PictureOrder { client, ask } = order;
    let answer = answer_for(alloc, folder, pictures, client, &ask);
    PictureRead {
        client,
        told: PictureTold { ask, answer },
    }
}

/// Reads what is ordered until nobody is left who orders, and wakes the loop behind each. It hands the folder back.
pub(crate) fn read_pictures<F: Folder, K: Wake, R: Wait + Clock>(
    rt: &R,
    alloc: Global,
    (wake, ends): (&K, &Ends),
    folder: F,
    line: PictureEnds,
) -> F {
    let mut folder = folder;
    let mut pictures: Option<OpenPictures<F::File>> = None;
    for _ in rt.forever() {
        let Some(order) = next_order(rt, &line.orders, &mut pictures) else {
            break;
        };
        let read = told_of(alloc, &mut folder, &mut pictures, order);
        if line.answers.send(rt, read).is_err() {
            break;
        }
        wake.wake();
    }
    ends.pictures_ended(rt);
    folder
}
