// Rings and media on examples.
#![tactic(auto)]

#[cfg(test)]
mod tests {
    use medium::Medium;
    use medium::burst::Burst;
    use medium::class::Class;
    use medium::offer::Offer;
    use medium::queue::QueueMedium;
    use noise::lossy::LossyMedium;
    use noise::noisy::NoisyMedium;
    use packing::packed::PackedMedium;
    use ring::Ring;
    use stranger_media::altering::AlteringMedium;
    use stranger_media::alternating::AlternatingMedium;
    use stranger_media::losing::LosingMedium;
    use stranger_media::pointed::under_way;
    use stranger_media::through::through_to_queue;

    #[test]
    fn ring_goes_round_below_its_limit(rt: HostRuntime) {
        let mut memory = [9u8; 3];
        let mut ring = Ring::over(&mut memory, 2);
        assert!(rt; ring.put(1));
        assert!(rt; ring.put(2));
        assert!(rt; !ring.put(3));
        assert_eq!(rt; ring.take(), Some(1));
        assert!(rt; ring.put(4));
        assert_eq!(rt; ring.look(0), Some(2));
        assert_eq!(rt; ring.look(1), Some(4));
        assert_eq!(rt; ring.look(2), None);
        assert_eq!(rt; memory[2], 9);
    }

    #[test]
    fn queue_keeps_order_and_place(rt: HostRuntime) {
        let mut memory = [Burst::blank(); 2];
        let mut queue = QueueMedium::over(&mut memory);
        let mut place = [0xee_u8; 104];
        assert_eq!(rt; queue.offer(b"a"), Offer::Whole);
        assert_eq!(rt; queue.offer(b"\x02E"), Offer::Whole);
        assert_eq!(rt; queue.offer(b"c"), Offer::Spoilt);
        assert!(rt; queue.holds(Class::Command) && !queue.holds(Class::Answer));
        assert_eq!(rt; queue.take(&mut place), 1);
        assert_eq!(rt; place[0], b'a');
        assert_eq!(rt; place[1], 0xee);
        assert_eq!(rt; queue.offer(b""), Offer::Spoilt);
        assert_eq!(rt; queue.offer(&[7; 105]), Offer::Spoilt);
        assert_eq!(rt; queue.offer(&[7; 104]), Offer::Whole);
        assert_eq!(rt; queue.count(), 2);
    }

    #[test]
    fn no_memory_carries_nothing(rt: HostRuntime) {
        let mut memory: [u8; 0] = [];
        let mut packed = PackedMedium::over(&mut memory);
        let mut place = [0xee_u8; 104];
        assert_eq!(rt; packed.offer(b"a"), Offer::Spoilt);
        assert_eq!(rt; packed.take(&mut place), 0);
        assert_eq!(rt; place[0], 0xee);
    }

    #[test]
    fn packed_bytes_serve_again(rt: HostRuntime) {
        let mut memory = [0u8; 8];
        let mut packed = PackedMedium::over(&mut memory);
        let mut place = [0xee_u8; 104];
        assert_eq!(rt; packed.offer(b"ab"), Offer::Whole);
        assert_eq!(rt; packed.offer(b"cd"), Offer::Whole);
        assert_eq!(rt; packed.offer(b"e"), Offer::Spoilt);
        assert_eq!(rt; packed.take(&mut place), 2);
        assert_eq!(rt; packed.offer(b"xA"), Offer::Whole);
        assert!(rt; packed.holds(Class::Answer) && !packed.holds(Class::Command));
        assert_eq!(rt; packed.take(&mut place), 2);
        assert_eq!(rt; place[0], b'c');
        assert_eq!(rt; packed.count(), 1);
    }

    #[test]
    fn noise_under_losses(rt: HostRuntime) {
        let mut memory = [Burst::blank(); 4];
        let mut noisy = NoisyMedium::over(&mut memory, 0x8000_0001);
        let mut place = [0xee_u8; 104];
        // the layer loses the second offer, so the noisy medium is hit by the first and the third
        let mut lossy = LossyMedium::over(&mut noisy, 0x8000_0000);
        assert_eq!(rt; lossy.offer(b"abc"), Offer::Spoilt);
        assert_eq!(rt; lossy.offer(b"lost"), Offer::Spoilt);
        assert_eq!(rt; lossy.offer(b"abc"), Offer::Spoilt);
        assert_eq!(rt; lossy.offer(b"abc"), Offer::Whole);
        assert_eq!(rt; lossy.count(), 3);
        assert_eq!(rt; lossy.take(&mut place), 3);
        assert!(rt; place[0] == b'a' ^ 1 && place[1] == b'b');
        assert_eq!(rt; lossy.take(&mut place), 3);
        assert!(rt; place[0] == b'a' && place[1] == b'b' ^ 1);
    }

    #[test]
    fn media_of_a_users_own(rt: HostRuntime) {
        let mut memory = [Burst::blank(); 4];
        let mut layer = AlternatingMedium::over(AlteringMedium::over(&mut memory));
        let mut place = [0xee_u8; 104];
        assert_eq!(rt; layer.offer(b"abc"), Offer::Spoilt);
        assert_eq!(rt; layer.offer(b"lost"), Offer::Spoilt);
        assert_eq!(rt; layer.offer(b"\xff"), Offer::Spoilt);
        assert_eq!(rt; layer.count(), 2);
        assert_eq!(rt; layer.take(&mut place), 3);
        assert!(rt; place[0] == b'b' && place[1] == b'b');
        assert_eq!(rt; layer.take(&mut place), 1);
        assert!(rt; place[0] == 0 && place[1] == b'b');
        let mut losing = LosingMedium;
        assert_eq!(rt; losing.offer(b"abc"), Offer::Spoilt);
        assert_eq!(rt; losing.take(&mut place), 0);
        assert_eq!(rt; under_way(&losing), 0);
        let mut queue = QueueMedium::over(&mut memory);
        assert_eq!(rt; through_to_queue(&mut queue, 1, b"lost"), Offer::Spoilt);
        assert_eq!(rt; through_to_queue(&mut queue, 2, b"whole"), Offer::Whole);
        assert_eq!(rt; queue.count(), 1);
        assert_eq!(rt; under_way(&queue), 1);
    }
}
