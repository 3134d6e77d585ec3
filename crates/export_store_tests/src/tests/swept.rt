//! What is handed out when others stand in its place.

use super::*;

// Whether the pages that were handed out are three, with these first bytes.
fn begin_with(swept: &Swept<Global>, firsts: [u8; 3]) -> bool {
    swept.pages().len() == 3
        && swept
            .pages()
            .iter()
            .zip(firsts)
            .all(|(page, first)| page.as_slice().first() == Some(&first))
}

// Whether the pages that a write puts others in place of are handed out.
fn outdates(image: &mut Paged<Global>, swept: &mut Swept<Global>, alloc: Global) -> bool {
    let written = writes(alloc, image, 4096, &[1, 2, 3])
        && writes(alloc, image, 4097, &[7, 7])
        && writes(alloc, image, 4096, &[7]);
    image.sweep(swept);
    written && begin_with(swept, [7, 1, 1])
}

// The pages that a write puts others in place of are handed out, where there is room for them, and the bytes are as they were.
#[test]
fn outdated_pages_are_handed_out(rt: HostRuntime) {
    let alloc = rt.alloc();
    let mut image: Paged<Global> = Paged::zeros(alloc, 12288).expect(&rt, "memory");
    assert!(rt; puts_sevens(alloc, &mut image, 12288));
    let mut swept = Swept::with_room(alloc, 4).expect(&rt, "memory");
    image.sweep(&mut swept);
    assert!(rt; swept.pages().is_empty());
    assert!(rt; outdates(&mut image, &mut swept, alloc));
    assert!(rt; is_but(alloc, &image, 7, 0, 0));
}

// Whether two whole pages of a payload, and no copies, come in the place of those that were there, which are handed out.
fn exchanges(image: &mut Paged<Global>, swept: &mut Swept<Global>, pages: Payload<Global>) -> bool {
    let written = puts(image, 4_096, &pages);
    let shared = match pages.into_whole_pages() {
        Ok(pages) => pages.iter().all(|page| !page.is_alone()),
        Err(_) => false,
    };
    image.sweep(swept);
    let out = swept.pages().len() == 2
        && swept
            .pages()
            .iter()
            .zip([1, 2])
            .all(|(page, first)| page.as_slice().first() == Some(&first));
    written && shared && out && image.has_alone(1) && image.has_alone(2)
}

#[test]
fn whole_pages_are_exchanged(rt: HostRuntime) {
    let alloc = rt.alloc();
    let mut image: Paged<Global> = Paged::zeros(alloc, 12288).expect(&rt, "memory");
    assert!(rt; puts_sevens(alloc, &mut image, 12288));
    assert!(rt; writes(alloc, &mut image, 4096, &[1]) && writes(alloc, &mut image, 8192, &[2]));
    let mut swept = Swept::with_room(alloc, 4).expect(&rt, "memory");
    image.sweep(&mut swept);
    let pages = sevens(alloc, 4_096, 8_192).expect(&rt, "memory");
    assert!(rt; exchanges(&mut image, &mut swept, pages));
    assert!(rt; is_but(alloc, &image, 7, 0, 0));
}

// Whether the two pages of an offer are kept until the next one, and handed out then.
fn hands_out_an_offer(
    image: &mut Paged<Global>,
    other: &Paged<Global>,
    swept: &mut Swept<Global>,
) -> bool {
    image.sweep(swept);
    image.offer(100, 4096, other);
    image.sweep(swept);
    let kept = swept.pages().is_empty();
    image.sweep(swept);
    image.offer(8192, 4096, other);
    image.sweep(swept);
    kept && swept.pages().len() == 2
}

#[test]
fn pages_of_an_offer_are_handed_out(rt: HostRuntime) {
    let alloc = rt.alloc();
    let mut other: Paged<Global> = Paged::zeros(alloc, 12288).expect(&rt, "memory");
    assert!(rt; puts_sevens(alloc, &mut other, 12288));
    let mut image: Paged<Global> = Paged::zeros(alloc, 12288).expect(&rt, "memory");
    let mut swept = Swept::with_room(alloc, 4).expect(&rt, "memory");
    assert!(rt; hands_out_an_offer(&mut image, &other, &mut swept));
}

// Whether an image hands nothing out.
fn hands_none_out<I: Image>(alloc: I::Alloc, image: &mut I) -> bool {
    match Swept::with_room(alloc, 4) {
        Ok(mut swept) => {
            image.sweep(&mut swept);
            swept.pages().is_empty()
        }
        Err(NoMemory) => false,
    }
}

#[test]
fn one_piece_hands_nothing_out(rt: HostRuntime) {
    let mut image: Flat<Global> = Flat::zeros(rt.alloc(), 6).expect(&rt, "memory");
    assert!(rt; writes(rt.alloc(), &mut image, 1, &[7, 7]));
    assert!(rt; hands_none_out(rt.alloc(), &mut image));
    assert!(rt; is_of(rt.alloc(), &image, &[0, 7, 7, 0, 0, 0]));
}

// Whether nothing is handed out for what is put into an image of zeros.
fn hands_nothing_out(
    image: &mut Paged<Global>,
    swept: &mut Swept<Global>,
    piece: &Payload<Global>,
) -> bool {
    let written = puts(image, 0, piece);
    image.sweep(swept);
    written && swept.pages().is_empty() && swept.chunks() == 0
}

// Whether zeros hand out a chunk that goes whole, and the pages of one that they find a part of.
fn hands_each_out(
    image: &mut Paged<Global>,
    swept: &mut Swept<Global>,
    spares: &mut Spares<Global>,
) -> bool {
    let zeroed = zeroes(image, 4_096, (2 << 20) + 4_096, false) && image.held() == 255;
    image.sweep(swept);
    let parts = swept.pages().len() == 257 && swept.chunks() == 1;
    swept.recycle(spares);
    let gone = zeroes(image, 0, 4_096, false) && image.held() == 254;
    image.sweep(swept);
    zeroed && parts && gone && swept.chunks() == 1
}

#[test]
fn zeros_hand_out_chunks_and_pages(rt: HostRuntime) {
    let mut image: Paged<Global> = Paged::zeros(rt.alloc(), 1 << 22).expect(&rt, "memory");
    let mut swept = Swept::with_room(rt.alloc(), 512).expect(&rt, "memory");
    let piece = sevens(rt.alloc(), 0, 3 << 20).expect(&rt, "memory");
    assert!(rt; hands_nothing_out(&mut image, &mut swept, &piece));
    assert!(rt; hands_each_out(&mut image, &mut swept, &mut Spares::new(rt.alloc())));
}

// Whether so many pages are handed out where a write puts others in place of more. They are let go.
fn hands_out(
    image: &mut Paged<Global>,
    swept: &mut Swept<Global>,
    spares: &mut Spares<Global>,
    piece: &Payload<Global>,
    count: usize,
) -> bool {
    image.sweep(swept);
    let written = puts(image, 0, piece);
    image.sweep(swept);
    let right = swept.pages().len() == count;
    swept.recycle(spares);
    written && right
}

#[test]
fn room_for_what_is_handed_out_grows(rt: HostRuntime) {
    let mut image: Paged<Global> = Paged::zeros(rt.alloc(), 520 << 12).expect(&rt, "memory");
    let mut swept = Swept::with_room(rt.alloc(), 256).expect(&rt, "memory");
    let mut spares = Spares::new(rt.alloc());
    let piece = sevens(rt.alloc(), 0, 520 << 12).expect(&rt, "memory");
    assert!(rt; puts(&mut image, 0, &piece));
    assert!(rt; hands_out(&mut image, &mut swept, &mut spares, &piece, 256));
    assert!(rt; hands_out(&mut image, &mut swept, &mut spares, &piece, 512));
}
