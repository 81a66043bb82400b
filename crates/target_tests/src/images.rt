use crate::fixtures::sample;
use fid_space::{Bytes, Cluster};
use llog_store::Llog;
use object_store::{ImageFault, Objects};
use reply_cache::Judgement;
use state_image::{
    Front, Image, a_state_is_as_long_as_its_parts, a_state_is_read_back, a_state_was_written_so,
    one_spelling_per_front,
};
use std::test::Fail;
use tree_model::{Errno, Reply};

#[test]
fn reads_what_it_wrote(rt: HostRuntime) -> Result<(), Fail> {
    let cluster = Cluster::new(2).expect(&rt, "two targets");
    let front = sample(cluster);
    let mut bytes = Bytes::new(rt.alloc());
    front.encode(&mut bytes)?;
    bytes.append(b"behind")?;
    assert_eq!(rt; front.size(), 80);
    match Front::read(cluster, 1, bytes.bytes()) {
        Ok((again, rest)) => {
            assert_eq!(rt; rest, b"behind".as_slice());
            assert_eq!(rt; (again.epoch, again.transno, again.clock), (6, 3, 4));
            assert_eq!(rt; (again.next_batch, again.mark), (5, 2));
            assert!(rt;
                matches!(
                    again.seats.judge(7, 9),
                    Judgement::Repeat(Reply::Err(Errno::EEXIST))
                )
            );
            assert!(rt; matches!(again.seats.judge(8, 9), Judgement::New));
        }
        Err(_) => assert!(rt; false),
    }
    one_spelling_per_front();
    Ok(())
}

#[test]
fn names_the_first_bad_field(rt: HostRuntime) -> Result<(), Fail> {
    let cluster = Cluster::new(2).expect(&rt, "two targets");
    let rows: [(usize, u8, usize); 14] = [
        (1, 0, 0),
        (4, 2, 4),
        (8, 0, 8),
        (12, 0, 12),
        (16, 3, 16),
        (21, 1, 21),
        (31, 0x40, 24),
        (40, 0, 40),
        (55, 0x80, 48),
        (63, 1, 63),
        (64, 64, 64),
        (68, 0, 68),
        (72, 3, 72),
        (56, 2, 80),
    ];
    for (at, byte, place) in rows {
        let mut bytes = Bytes::new(rt.alloc());
        sample(cluster).encode(&mut bytes)?;
        let mut changed = Vec::new(rt.alloc());
        changed.extend_from_slice(bytes.bytes())?;
        if let Some(old) = changed.as_mut_slice().get_mut(at) {
            *old = byte;
        }
        match Front::read(cluster, 1, &changed) {
            Ok(_) => assert!(rt; false, "{at}"),
            Err(fault) => assert_eq!(rt; fault, ImageFault::BadImage(place), "{at}"),
        }
    }
    Ok(())
}

#[test]
fn reads_a_whole_image(rt: HostRuntime) -> Result<(), Fail> {
    let cluster = Cluster::new(2).expect(&rt, "two targets");
    let objects = Objects::new(rt.alloc(), cluster, 1)?;
    let log = Llog::new(rt.alloc())?;
    let mut bytes = Bytes::new(rt.alloc());
    sample(cluster).encode(&mut bytes)?;
    objects.encode(&mut bytes)?;
    bytes.append(&[0, 0x80, 0, 0, 0, 0, 0, 0])?;
    bytes.append(log.chunk(0).expect(&rt, "a header"))?;
    match Image::read(rt.alloc(), cluster, 1, bytes.bytes()) {
        Ok(image) => {
            assert_eq!(rt; (image.front.epoch, image.objects.size()), (6, 8));
            assert_eq!(rt; (image.log.next(), image.log.records()), (1, 0));
        }
        Err(_) => assert!(rt; false),
    }
    bytes.push(0)?;
    match Image::read(rt.alloc(), cluster, 1, bytes.bytes()) {
        Ok(_) => assert!(rt; false),
        Err(fault) => assert_eq!(rt; fault, ImageFault::BadImage(32_865)),
    }
    a_state_is_read_back();
    a_state_was_written_so();
    a_state_is_as_long_as_its_parts();
    Ok(())
}
