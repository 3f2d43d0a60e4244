//! Loads ahead of what a batch asks for.
ghost use Rattle.std.specs.Prelude.{List};
ghost use Rattle.batch_packets.specs.declared.batch.Request.{Request};
ghost use Rattle.datagram_answers.specs.Answering.{AreLeft};

use batch_packets::Requests;
use fronts::{Front, MOST_AHEAD, load_all};

/// Loads what the requests that are left, so many, will look at, where the front's tables are larger than the caches. One alone has none to miss beside.
pub(crate) fn load_ahead<F: Front>(front: &F, count: u8, requests: &Requests)
    requires { (all : List Request) × AreLeft requests.now requests.now.version count all }
{
    if count < 2 || !front.loads_ahead() {
        return;
    }
    let mut ahead = requests.again();
    let hashing = front.hashing();
    let mut hashes = [0; MOST_AHEAD];
    let many = usize::from(count);
    for i in 0..many {
        let request = ahead.next_request();
        hashes[i] = hashing.key_hash(request.key());
    }
    load_all(front, &hashes[..many]);
}
