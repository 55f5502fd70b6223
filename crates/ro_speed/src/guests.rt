//! The loops. Each counts x6 down to 0 and ends with EBREAK; x5 is the address of its data.

/// A loop of instructions.
#[derive(Clone, Copy)]
pub enum Guest {
    /// A load, a store, a branch and four operations on registers.
    Mix,
    /// Two stores and two loads on the stack, and three branches.
    Stack,
    /// Three multiplications, two loads and a store of bytes.
    Bytes,
    /// A load and a store in a page that was not accessed for 31 turns.
    Wide,
}

impl Guest {
    pub fn named(name: &str) -> Option<Guest> {
        match name {
            "mix" => Some(Guest::Mix),
            "stack" => Some(Guest::Stack),
            "bytes" => Some(Guest::Bytes),
            "wide" => Some(Guest::Wide),
            _ => None,
        }
    }

    pub fn name(self) -> &'static str {
        match self {
            Guest::Mix => "mix",
            Guest::Stack => "stack",
            Guest::Bytes => "bytes",
            Guest::Wide => "wide",
        }
    }

    /// Whether it needs no more pages than a lease has.
    pub fn is_narrow(self) -> bool {
        !matches!(self, Guest::Wide)
    }

    pub fn words(self) -> &'static [u32] {
        match self {
            Guest::Mix => &MIX,
            Guest::Stack => &STACK,
            Guest::Bytes => &BYTES,
            Guest::Wide => &WIDE,
        }
    }
}

/// lw x7, 0(x5); add x8, x8, x7; xor x9, x9, x8; slli x10, x9, 3; sw x9, 4(x5); addi x6, x6, -1; bne x6, x0
static MIX: [u32; 8] = [
    0x0002_A383,
    0x0074_0433,
    0x0084_C4B3,
    0x0034_9513,
    0x0092_A223,
    0xFFF3_0313,
    0xFE03_14E3,
    0x0010_0073,
];

/// addi x2, x2, -16; sw x6, 12(x2); sw x9, 8(x2); andi x7, x6, 1; beq x7, x0, 8; addi x9, x9, 3; lw x8, 12(x2);
/// lw x10, 8(x2); addi x2, x2, 16; bltu x10, x8, 8; add x9, x9, x8; addi x6, x6, -1; bne x6, x0
static STACK: [u32; 14] = [
    0xFF01_0113,
    0x0061_2623,
    0x0091_2423,
    0x0013_7393,
    0x0003_8463,
    0x0034_8493,
    0x00C1_2403,
    0x0081_2503,
    0x0101_0113,
    0x0085_6463,
    0x0084_84B3,
    0xFFF3_0313,
    0xFC03_18E3,
    0x0010_0073,
];

/// mul x7, x6, x8; mulhu x9, x7, x8; andi x10, x9, 255; add x11, x5, x10; lbu x12, 0(x11); add x12, x12, x7;
/// sb x12, 0(x11); lb x13, 1(x11); mulh x14, x13, x7; add x8, x8, x14; addi x6, x6, -1; bne x6, x0
static BYTES: [u32; 13] = [
    0x0283_03B3,
    0x0283_B4B3,
    0x0FF4_F513,
    0x00A2_85B3,
    0x0005_C603,
    0x0076_0633,
    0x00C5_8023,
    0x0015_8683,
    0x0276_9733,
    0x00E4_0433,
    0xFFF3_0313,
    0xFC03_1AE3,
    0x0010_0073,
];

/// lui x11, 18; andi x7, x6, 31; slli x7, x7, 12; add x7, x7, x11; lw x8, 0(x7); add x9, x8, x6; sw x9, 0(x7);
/// addi x6, x6, -1; bne x6, x0
static WIDE: [u32; 10] = [
    0x0001_25B7,
    0x01F3_7393,
    0x00C3_9393,
    0x00B3_83B3,
    0x0003_A403,
    0x0064_04B3,
    0x0093_A023,
    0xFFF3_0313,
    0xFE03_10E3,
    0x0010_0073,
];
