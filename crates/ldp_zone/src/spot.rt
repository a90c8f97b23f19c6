/// What may stand next in the text of a zone.
#[derive(Clone, Copy)]
pub enum Spot {
    /// The word of the geometry.
    Geometry,
    /// After `POLYGON` or `MULTIPOLYGON`: `Z`, or as at `Body`.
    Dimension,
    /// `EMPTY`, or the `(` of the whole geometry.
    Body,
    /// In a multipolygon: `EMPTY`, or the `(` of a polygon.
    Polygon,
    /// The `(` of a ring.
    Ring,
    /// The first number of a point.
    First,
    /// The second number of a point.
    Second,
    /// The third number of a point, or as at `PointEnd`.
    Third,
    /// `,` and a point, or the `)` of the ring.
    PointEnd,
    /// `,` and a ring, or the `)` of the polygon.
    RingEnd,
    /// `,` and a polygon, or the `)` of the multipolygon.
    PolygonEnd,
    /// Nothing.
    End,
}
