// The writers that keep no limit: the lists of the bases stand one after the other, the derived object's own last.
use super::*;
use std::test::Fail;

// Two bases, an additional schema in word 6 of a record, the required texts by place and count in words 7 and 8: of the first an additional
// schema and two texts, of the second one text.
const SCHEMAS: [u32; 32] = [
    0, 0, 0, 0, 0, 0, 3, 0, 2, 0, 0, 0, 0, 0, 0, 0, // the first
    0, 0, 0, 0, 0, 0, NONE, 2, 1, 0, 0, 0, 0, 0, 0, 0,
];

#[test]
fn lists_stand_one_after_the_other(rt: HostRuntime) {
    let links = [4, 5, 6];
    let mut room = [0; 3];
    assert_eq!(rt; lay_list(&links, 1, 2, &mut room), Some(2));
    assert_eq!(rt; room, [5, 6, 0]);
    assert_eq!(rt; lay_list(&links, 0, 4, &mut room), None);
    let bases = Bases {
        notes: &[],
        schemas: &SCHEMAS,
        links: &links,
        objects: &[0, 1],
    };
    assert_eq!(rt; lay_required(bases, &mut room), Some(3));
    assert_eq!(rt; room, [4, 5, 6]);
    assert_eq!(rt; lay_offers(bases, false, &mut room), Some(1));
    assert_eq!(rt; room, [3, 5, 6]);
    assert_eq!(rt; lay_join(bases, false, 8, 1, &mut room), Some(0));
    assert_eq!(rt; lay_join(bases, false, 8, 2, &mut room), Some(2));
    assert_eq!(rt; room, [3, 8, 6]);
}

#[test]
fn pairs_are_laid_as_words(rt: HostRuntime) {
    let texts = Texts {
        pool: b"ab",
        records: &[0, 1, 1, 1, 0, 1],
    };
    // One record, whose pairs stand by place and count in words 2 and 3.
    let mut schemas = [0; 16];
    schemas[3] = 2;
    let bases = Bases {
        notes: &[],
        schemas: &schemas,
        links: &[0, 5, 1, 6],
        objects: &[0],
    };
    let mut room = [0; 5];
    assert_eq!(rt;
        lay_pairs(&texts, bases, 2, &[2, 7], 0, 1, &mut room),
        Some(4)
    );
    assert_eq!(rt; room, [2, 7, 1, 6, 0]);
}

#[test]
fn limit_of_the_links_is_no_limit_of_a_room(rt: HostRuntime) -> Result<(), Fail> {
    let mut links = vec![in rt.alloc(); 0; 20_000]?;
    assert_eq!(rt; lay_list_within(&[7], 0, 16_385, 0, &mut links), None);
    assert_eq!(rt; lay_list(&[7], 0, 16_385, &mut links), Some(16_385));
    assert_eq!(rt; links.first(), Some(&7));
    assert_eq!(rt; links.get(MOST_LINKS), Some(&0));
    Ok(())
}
