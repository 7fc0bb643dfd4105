// The register block by value: power-on, what a read shows, what a write leaves in a word.
ghost use Rattle.std.specs.Prelude.{◌≡◌};
ghost use Rattle.registers.specs.Block.{power_on, block_size, block_count, mode_of, command_of, dma_select, bus_power, bus_clock, with_system, with_block, with_argument, with_order, with_host, with_clock, with_interrupts, with_reply, with_fault, with_low, with_high, unplugged};
ghost use Rattle.registers.specs.Access.{taker_shown, teller_shown, shown_of, take_from, take_of, read_of};

use crate::bits::{bit, less};
use crate::interrupt::Interrupts;
use crate::place::{Access, Edit, Taker, Teller, Word};
use crate::reset::reset_bits;
use crate::word::{
    Facts, clock_after, host_after, is_used, order_after, present, stored_word, version,
};
use terms::{Answer, BlockCount, Refusal};

// "040h reads 010832B2h".
const CAPABILITIES: u32 = 0x010832B2;

// 000h to 00Fh.
#[repr(C)]
#[derive(Clone, Copy, Default)]
pub struct Setup {
    pub system: u32,
    pub block: u32,
    pub argument: u32,
    pub order: u32,
}

// 010h to 01Fh.
#[repr(C)]
#[derive(Clone, Copy, Default)]
pub struct Reply {
    pub first: u32,
    pub second: u32,
    pub third: u32,
    pub fourth: u32,
}

// 028h to 02Fh.
#[repr(C)]
#[derive(Clone, Copy, Default)]
pub struct Control {
    pub host: u32,
    pub clock: u32,
}

// 054h to 05Fh.
#[repr(C)]
#[derive(Clone, Copy, Default)]
pub struct Adma {
    pub fault: u8,
    pub low: u32,
    pub high: u32,
}

#[repr(C)]
#[derive(Clone, Copy)]
pub struct Registers {
    pub setup: Setup,
    pub reply: Reply,
    pub control: Control,
    pub interrupts: Interrupts,
    pub adma: Adma,
}

impl Registers {
    // The block at power-on: at start, and after a reset of all.
    pub fn power_on() -> Registers
        ensures { result ≡ power_on }
    {
        Registers {
            setup: Setup::default(),
            reply: Reply::default(),
            control: Control::default(),
            interrupts: Interrupts::default(),
            adma: Adma::default(),
        }
    }

    pub fn with_system(mut self, n: u32) -> Registers
        ensures { result ≡ with_system self n }
    {
        self.setup.system = n;
        self
    }

    pub fn with_block(mut self, n: u32) -> Registers
        ensures { result ≡ with_block self n }
    {
        self.setup.block = n;
        self
    }

    pub fn with_argument(mut self, n: u32) -> Registers
        ensures { result ≡ with_argument self n }
    {
        self.setup.argument = n;
        self
    }

    pub fn with_order(mut self, n: u32) -> Registers
        ensures { result ≡ with_order self n }
    {
        self.setup.order = n;
        self
    }

    pub fn with_host(mut self, n: u32) -> Registers
        ensures { result ≡ with_host self n }
    {
        self.control.host = n;
        self
    }

    pub fn with_clock(mut self, n: u32) -> Registers
        ensures { result ≡ with_clock self n }
    {
        self.control.clock = n;
        self
    }

    pub fn with_interrupts(mut self, i: Interrupts) -> Registers
        ensures { result ≡ with_interrupts self i }
    {
        self.interrupts = i;
        self
    }

    // The words of a response, 010h to 01Fh.
    pub fn with_reply(mut self, reply: Reply) -> Registers
        ensures { result ≡ with_reply self reply }
    {
        self.reply = reply;
        self
    }

    // 054h, which only an ADMA error sets.
    pub fn with_fault(mut self, n: u8) -> Registers
        ensures { result ≡ with_fault self n }
    {
        self.adma.fault = n;
        self
    }

    // 058h, which a guest writes and the engine moves.
    pub fn with_low(mut self, n: u32) -> Registers
        ensures { result ≡ with_low self n }
    {
        self.adma.low = n;
        self
    }

    pub fn with_high(mut self, n: u32) -> Registers
        ensures { result ≡ with_high self n }
    {
        self.adma.high = n;
        self
    }

    // Transfer Block Size: 004h bits 11-0.
    pub fn block_size(self) -> u16
        ensures { result ≡ block_size self }
    {
        (self.setup.block % 4096) as u16
    }

    // Block Count: 006h.
    pub fn block_count(self) -> BlockCount
        ensures { result ≡ block_count self }
    {
        BlockCount((self.setup.block / 65536) as u16)
    }

    // Transfer Mode: 00Ch.
    pub fn mode(self) -> u32
        ensures { result ≡ mode_of self }
    {
        self.setup.order % 65536
    }

    // Command: 00Eh.
    pub fn command(self) -> u32
        ensures { result ≡ command_of self }
    {
        self.setup.order / 65536
    }

    // DMA Select: 028h bits 4-3.
    pub fn dma_select(self) -> u32
        ensures { result ≡ dma_select self }
    {
        self.control.host / 8 % 4
    }

    // SD Bus Power: 029h bit 0.
    #[tactic(auto, unfolding(crate::specs::Bits::bit_of))]
    pub fn bus_power(self) -> bool
        ensures { result ≡ bus_power self }
    {
        bit(self.control.host, 8)
    }

    // SD Clock Enable: 02Ch bit 2.
    #[tactic(auto, unfolding(crate::specs::Bits::bit_of))]
    pub fn bus_clock(self) -> bool
        ensures { result ≡ bus_clock self }
    {
        bit(self.control.clock, 2)
    }

    // A card that leaves takes power and clock with it.
    pub fn unplug(self) -> Registers
        ensures { result ≡ unplugged self }
    {
        let host = less(self.control.host, 0x100);
        let clock = less(self.control.clock, 4);
        self.with_host(host).with_clock(clock)
    }

    // A word that takes writes, as it reads.
    fn taker_shown(self, word: Taker, level: bool) -> u32
        ensures { result ≡ taker_shown word level self }
    {
        match word {
            Taker::System => self.setup.system,
            Taker::Block => self.setup.block,
            Taker::Argument => self.setup.argument,
            Taker::Order => self.setup.order,
            Taker::Host => self.control.host,
            Taker::Clock => self.control.clock | (2 * (self.control.clock % 2)),
            Taker::Status => self.interrupts.shown(level),
            Taker::Enabled => self.interrupts.enabled,
            Taker::Signal => self.interrupts.signal,
            Taker::Force => 0,
            Taker::Low => self.adma.low,
            Taker::High => self.adma.high,
        }
    }

    // A word that ignores writes, as it reads.
    fn teller_shown(self, word: Teller, f: Facts) -> u32
        ensures { result ≡ teller_shown word f self }
    {
        match word {
            Teller::First => self.reply.first,
            Teller::Second => self.reply.second,
            Teller::Third => self.reply.third,
            Teller::Fourth => self.reply.fourth,
            Teller::Present => present(f),
            Teller::Ability => CAPABILITIES,
            Teller::Fault => u32::from(self.adma.fault),
            Teller::Version => version(self.interrupts.line(f.level)),
            Teller::Nothing => 0,
        }
    }

    // A word as it reads.
    #[tactic(auto, unfolding(crate::specs::Access::shown_of))]
    pub fn shown(self, word: Word, f: Facts) -> u32
        ensures { result ≡ shown_of word f self }
    {
        match word {
            Word::Takes(w) => self.taker_shown(w, f.level),
            Word::Tells(w) => self.teller_shown(w, f),
        }
    }

    // The block after a write to a word that takes it. A command is issued elsewhere: here 00Ch to 00Fh only store.
    #[tactic(auto, unfolding(crate::specs::Access::take_from))]
    fn take_from(self, word: Taker, e: Edit, inhibited: bool, card: bool) -> Registers
        ensures { result ≡ take_from word e inhibited card self }
    {
        match word {
            Taker::System => self.with_system(stored_word(0xFFFFFFFF, e, self.setup.system)),
            Taker::Block => self.with_block(stored_word(0xFFFF7FFF, e, self.setup.block)),
            Taker::Argument => self.with_argument(stored_word(0xFFFFFFFF, e, self.setup.argument)),
            Taker::Order => self.with_order(order_after(inhibited, e, self.setup.order)),
            Taker::Host => self.with_host(host_after(card, e, self.control.host)),
            Taker::Clock => self
                .with_clock(clock_after(card, e, self.control.clock))
                .reset(reset_bits(e)),
            Taker::Status => self.with_interrupts(self.interrupts.acknowledge(e.bits)),
            Taker::Enabled => self.with_interrupts(self.interrupts.enable(e)),
            Taker::Signal => self.with_interrupts(self.interrupts.signals(e)),
            Taker::Force => self.with_interrupts(self.interrupts.force(e)),
            Taker::Low => self.with_low(stored_word(0xFFFFFFFC, e, self.adma.low)),
            Taker::High => self.with_high(stored_word(0xFFFFFFFF, e, self.adma.high)),
        }
    }

    // The block after a write to a word.
    #[tactic(auto, unfolding(crate::specs::Access::take_of))]
    pub fn take(self, word: Word, e: Edit, f: Facts) -> Registers
        ensures { result ≡ take_of word e f self }
    {
        match word {
            Word::Takes(w) => self.take_from(w, e, is_used(f.dat), f.card),
            Word::Tells(_) => self,
        }
    }

    // A read: the value, or no place.
    pub fn read(self, f: Facts, access: Access) -> Answer
        ensures { result ≡ read_of self f access.offset access.width }
    {
        let Some(span) = access.place() else {
            return Err(Refusal::NoPlace);
        };
        Ok(span.cut(self.shown(span.word(), f)))
    }
}
