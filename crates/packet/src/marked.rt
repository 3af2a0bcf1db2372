ghost use Rattle.std.specs.Prelude.{◌≡◌, ℕ, List, [], ◌∷◌};
ghost use Rattle.packet.specs.Marked.{enroll_checksum, highest_password, list_checksum};

/// Worked examples: the checksum of ES for the ID 0x9929, that of LT answering three IDs, and the sum of sixteen 0xFF.
pub fn marked_packets()
    ensures enroll { enroll_checksum ≡ 0x07 }
    ensures list { (ids : List ℕ) → list_checksum ids ≡ 0xC8 }
    ensures password { highest_password ≡ 0xF0 ∷ 0x0F ∷ [] }
{}
