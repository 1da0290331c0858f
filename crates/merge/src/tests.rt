// The writers that keep no limit: a later pair replaces the whole pair in place, new ones stand at the end.
use super::*;
use std::test::Fail;

// Three texts, the first and the last of them alike.
const RECORDS: [u32; 6] = [0, 1, 1, 1, 0, 1];

#[test]
fn later_pairs_replace(rt: HostRuntime) {
    let texts = Texts {
        pool: b"ab",
        records: &RECORDS,
    };
    let mut room = [0, 7, 0, 0];
    assert_eq!(rt; put_pair(&texts, &mut room, 1, 2, 9), Some(1));
    assert_eq!(rt; room, [2, 9, 0, 0]);
    assert_eq!(rt; put_pair(&texts, &mut room, 1, 1, 8), Some(2));
    assert_eq!(rt; room, [2, 9, 1, 8]);
    let links = [0, 5, 1, 6, 2, 7];
    let mut room = [0; 4];
    assert_eq!(rt; put_pairs(&texts, &links, 0, 3, &mut room, 0), Some(2));
    assert_eq!(rt; room, [2, 7, 1, 6]);
    let mut room = [0; 3];
    assert_eq!(rt; put_pairs(&texts, &links, 0, 3, &mut room, 0), None);
}

#[test]
fn lists_of_records_are_merged(rt: HostRuntime) {
    let texts = Texts {
        pool: b"ab",
        records: &RECORDS,
    };
    let links = [0, 5, 1, 6, 2, 7];
    // The first record has two properties, the second, one.
    let mut schemas = [0; 32];
    schemas[3] = 2;
    schemas[18] = 4;
    schemas[19] = 1;
    let mut room = [0; 5];
    assert_eq!(rt;
        merge_all(&texts, &schemas, &links, &[0, 1], 2, &mut room),
        Some(2)
    );
    assert_eq!(rt; room, [2, 7, 1, 6, 0]);
    let mut room = [0; 5];
    let merged = merge_pairs(
        &texts,
        &schemas,
        &links,
        &[0, 1],
        2,
        &[1, 4],
        0,
        1,
        &mut room,
    );
    assert_eq!(rt; merged, Some(2));
    assert_eq!(rt; room, [2, 7, 1, 4, 0]);
}

#[test]
fn limit_of_the_links_is_no_limit_of_a_room(rt: HostRuntime) -> Result<(), Fail> {
    let texts = Texts {
        pool: b"ab",
        records: &RECORDS,
    };
    let mut room = vec![in rt.alloc(); 0; MOST_LINKS + 2]?;
    let n = MOST_LINKS / 2;
    assert_eq!(rt; put_pair_within(&texts, 0, &mut room, n, 1, 9), None);
    assert_eq!(rt; put_pair(&texts, &mut room, n, 1, 9), Some(n + 1));
    assert_eq!(rt; room.get(MOST_LINKS..), Some([1, 9].as_slice()));
    Ok(())
}
