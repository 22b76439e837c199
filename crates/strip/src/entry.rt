// The two ways in for a strip: the full-size entry, for frames of up to 4096 columns and rows; and the preview, for the unit beside the chair, which shows at most
// 1024 columns and takes at most 64 rows in a strip.
#[derive(Clone, Copy)]
pub enum Entry {
    FullSize,
    Preview,
}
